// Entities: texts that SMT-LIB's strings have, and members of enums.
ghost use Rattle.walk_names.specs.Progress.{Advances};
ghost use Rattle.walk_new.specs.News.{StringAt, EntityAt, string_walk, entity_walk};

use crate::steps::{define, refuse_high};
use index::Column;
use refusal::Refusal;
use walk_names::naming::Named;
use walk_names::walk::{Stopped, Walk};
use walk_queries::queries::Member;
use write_terms::definitions::Body;

// Defines the entity with number n, whose type is no enum.
fn define_string_entity(walk: &mut Walk, n: u32, id: &[u8]) -> Result<(), Stopped>
    ensures { Advances (StringAt n id.now) (string_walk n id.now) walk.old walk.new result }
{
    refuse_high(read_utf8::first_high(id), Refusal::HighId, n)?;
    define(walk, n, Body::Plain)
}

// Defines the entity with number n and the type with number t, or enters it where its type is an enum. Where it stands there is asked for once:
// one more is noted of the first equal term, or 0, which is no note, where that does not fit.
pub fn define_entity(walk: &mut Walk, n: u32, t: u32, id: &[u8]) -> Result<(), Stopped>
    ensures { Advances (EntityAt n t id.now) (entity_walk n t id.now) walk.old walk.new result }
{
    match walk_queries::queries::find_member(walk.records.view(), t, id) {
        Member::NoEnum => define_string_entity(walk, n, id),
        Member::NotMember => Err(Stopped {
            refusal: Refusal::NotMember,
            term: n,
            position: 0,
        }),
        Member::At(i) => {
            walk.enter(Named::Terms, n);
            let first = walk.records.get(Column::TermFirst, n);
            let note = i.checked_add(1).unwrap_or(0);
            walk.records.set(Column::Note, first, note);
            Ok(())
        }
    }
}
