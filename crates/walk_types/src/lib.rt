// The encoder's walk over types and functions, by the numbers of their records: what was not declared before is.
#![tactic(auto)]

pub mod declare;
pub mod parts;
pub mod settled;

ghost use Rattle.index_entry.specs.Terms.{children_in};
ghost use Rattle.walk_names.specs.Progress.{Passes};
ghost use Rattle.walk_types.specs.Types.{type_ready, type_walk, IsLeft, PartsReady, parts_walk, fun_ready, fun_walk};

use index::Column;
use index_entry::terms::Children;
use walk_names::naming::{self, Named};
use walk_names::walk::Walk;

// Whether the type with number t is left: it has a name, or nothing is to be declared for it. Out of line it takes no stack while the parts
// are encoded.
#[inline(never)]
fn is_left(walk: &Walk, t: u32) -> bool
    ensures { IsLeft t walk.now result }
{
    if naming::get(walk.records.view(), Named::Types, t).is_some() {
        return true;
    }
    settled::is_settled(walk.records.view(), t)
}

// Encodes the type with number t: its parts, then itself. A type that has a name is left, and an option or a set of one too.
#[cycle(encode_type_encode_types)]
pub fn encode_type(walk: &mut Walk, t: u32)
    ensures { Passes (type_ready t) (type_walk t) walk.old walk.new }
{
    if is_left(walk, t) {
        return;
    }
    let offset = walk.records.get(Column::TypeOffset, t);
    let parts = parts::parts_at(walk.records.file, offset);
    encode_types(walk, t, parts);
    declare::declare_type(walk, t)
}

// Encodes the parts of the type with number t. A part has a lower number.
#[cycle(encode_type_encode_types)]
fn encode_types(walk: &mut Walk, t: u32, parts: Children<'_>)
    ensures { Passes (PartsReady t (children_in parts.entry)) (parts_walk (children_in parts.entry)) walk.old walk.new }
{
    for part in parts {
        if t <= part {
            return;
        }
        encode_type(walk, part);
    }
}

// Encodes the function with number g: its comment, its types, then itself. A function that has a name is left.
pub fn encode_uuf(walk: &mut Walk, g: u32)
    ensures { Passes (fun_ready g) (fun_walk g) walk.old walk.new }
{
    if naming::get(walk.records.view(), Named::Funs, g).is_some() {
        return;
    }
    let fun = index_entry::numbered::fun_at(walk.records.view(), g);
    declare::put_id(walk, g);
    encode_type(walk, fun.argument);
    encode_type(walk, fun.result);
    declare::declare_fun(walk, g)
}
