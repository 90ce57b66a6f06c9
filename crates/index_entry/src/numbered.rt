// Types and functions by their numbers.
ghost use Rattle.index.specs.Cells.{cell, type_offset, fun_offset};
ghost use Rattle.index_entry.specs.Types.{TypeAt};
ghost use Rattle.index_entry.specs.Symbols.{FunAt};

use crate::symbols::{self, Fun};
use crate::types::{self, TypeEntry};
use index::{Column, Records};

// The type with number t.
pub fn type_at(records: Records<'_>, t: u32) -> TypeEntry<'_>
    ensures { TypeAt records.entry.file.now (cell records.entry.work.now records.entry.sizes.rows type_offset t) result }
{
    types::type_at(records.file, records.get(Column::TypeOffset, t))
}

// The function with number g.
pub fn fun_at(records: Records<'_>, g: u32) -> Fun
    ensures { FunAt records.entry.file.now (cell records.entry.work.now records.entry.sizes.rows fun_offset g) result }
{
    symbols::fun_at(records.file, records.get(Column::FunOffset, g))
}
