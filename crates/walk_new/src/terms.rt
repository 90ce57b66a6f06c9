// A term that is new to the table, by its entry.
ghost use Rattle.walk_names.specs.Progress.{Advances};
ghost use Rattle.walk_new.specs.Steps.{NewAt, new_walk};

use crate::steps::{declare, define};
use index::Column;
use index_entry::terms::{Application, TermEntry};
use walk_names::walk::{Stopped, Walk};
use write_terms::definitions::Body;

// Enters, declares, defines or refuses the term with number n. Out of line it takes no stack while the children are encoded.
#[inline(never)]
pub fn encode_new(walk: &mut Walk, n: u32) -> Result<(), Stopped>
    ensures { Advances (NewAt n) (new_walk n) walk.old walk.new result }
{
    let offset = walk.records.get(Column::TermOffset, n);
    match index_entry::terms::term_at(walk.records.file, offset) {
        TermEntry::Var(_, _) => declare(walk, n),
        TermEntry::BoolLit(_) | TermEntry::BitVecLit(_, _) | TermEntry::Unreadable => Ok(()),
        TermEntry::StringLit(text) => crate::texts::check_literal(walk, n, text),
        TermEntry::Entity(t, id) => crate::entities::define_entity(walk, n, t, id),
        TermEntry::Some(m) => define(walk, n, Body::Some(m)),
        TermEntry::Set(_, children) => define(walk, n, Body::Set(children)),
        TermEntry::Record(children) => define(walk, n, Body::Record(children)),
        TermEntry::App(_, op, arguments) => {
            let call = Application {
                number: n,
                op,
                arguments,
            };
            crate::applications::define_app(walk, call)
        }
        TermEntry::ExtLit(_) | TermEntry::None(_) => define(walk, n, Body::Plain),
    }
}
