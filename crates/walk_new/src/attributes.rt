// What `RecordGet` asks of its argument's type.
ghost use Rattle.walk_names.specs.Progress.{Advances};
ghost use Rattle.index_entry.specs.Terms.{children_in};
ghost use Rattle.walk_new.specs.Steps.{TypedAt, ParentAt, attribute_walk, get_walk};

use index::Column;
use index_entry::terms::Application;
use refusal::Refusal;
use walk_names::naming::{self, Named};
use walk_names::walk::{Stopped, Walk};

// Refuses the term with number n where the type with number t has no name, or is no record type with this attribute.
fn check_attribute(walk: &Walk, n: u32, t: u32, a: &[u8]) -> Result<(), Stopped>
    ensures { Advances (TypedAt n t) (attribute_walk n t a.now) walk.now walk.now result }
{
    let records = walk.records.view();
    let named = naming::get(records, Named::Types, t).is_some();
    if !named {
        return Err(Stopped {
            refusal: Refusal::TypeNotDeclared,
            term: n,
            position: 0,
        });
    }
    match walk_queries::queries::index_of_attr(records, t, a) {
        Ok(_) => Ok(()),
        Err(refusal) => Err(Stopped {
            refusal,
            term: n,
            position: 0,
        }),
    }
}

// Refuses an application of `RecordGet` where it has no argument, or where its first argument's type lacks the attribute.
pub fn record_get(walk: &Walk, call: Application<'_>, a: &[u8]) -> Result<(), Stopped>
    ensures { Advances (ParentAt call.entry.number (children_in call.entry.arguments)) (get_walk call.entry.number a.now) walk.now walk.now result }
{
    let mut arguments = call.arguments;
    match arguments.next() {
        None => Err(Stopped {
            refusal: Refusal::NoArgument,
            term: call.number,
            position: 0,
        }),
        Some(child) => {
            let t = walk.records.get(Column::TermType, child);
            check_attribute(walk, call.number, t, a)
        }
    }
}
