// Types and functions entered in their tables, and what declares them, written into the rest of the script.
ghost use Rattle.std.specs.Prelude.{◌≡◌};
ghost use Rattle.walk_names.specs.Progress.{Passes};
ghost use Rattle.walk_types.specs.Types.{declared_letter, IsDatatype, NewType, declare_walk, fun_ready, id_walk, NewFun, declare_fun_walk};

use index::{Column, Records};
use walk_names::naming::Named;
use walk_names::walk::Walk;
use write_types::functions::{FunComment, FunDeclaration};
use write_types::lines::TypeLines;

// Whether the second byte of a type's mark is that of an entity, extension or record type.
#[tactic(auto, unfolding(crate::specs::Types::declared_letter))]
fn is_declared(letter: u8) -> bool
    ensures { result ≡ declared_letter letter }
{
    matches!(letter, b'E' | b'X' | b'R')
}

// Whether the type with number t is an entity, extension or record type.
fn is_datatype(records: Records<'_>, t: u32) -> bool
    ensures { IsDatatype records.entry t result }
{
    let offset = records.get(Column::TypeOffset, t);
    is_declared(index_entry::records::letter_at(records.file, offset))
}

// Names the type with number t and declares it, if it is a datatype. Out of line it takes no stack while the parts are encoded.
#[inline(never)]
pub fn declare_type(walk: &mut Walk, t: u32)
    ensures { Passes (NewType t) (declare_walk t) walk.old walk.new }
{
    if !is_datatype(walk.records.view(), t) {
        return;
    }
    walk.enter(Named::Types, t);
    walk.script.lend(TypeLines {
        records: walk.records.view(),
        number: t,
    })
}

// Writes the comment of the function with number g.
pub fn put_id(walk: &mut Walk, g: u32)
    ensures passes { Passes (fun_ready g) (id_walk g) walk.old walk.new }
    ensures records { walk.new.records ≡ walk.old.records }
{
    walk.script.lend(FunComment {
        records: walk.records.view(),
        number: g,
    })
}

// Names the function with number g and declares it.
pub fn declare_fun(walk: &mut Walk, g: u32)
    ensures { Passes (NewFun g) (declare_fun_walk g) walk.old walk.new }
{
    walk.enter(Named::Funs, g);
    walk.script.lend(FunDeclaration {
        records: walk.records.view(),
        number: g,
    })
}
