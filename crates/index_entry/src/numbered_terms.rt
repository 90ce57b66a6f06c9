// Terms by their numbers.
ghost use Rattle.index.specs.Cells.{cell, term_offset};
ghost use Rattle.index_entry.specs.Terms.{TermAt, TermFits};

use crate::terms::{self, TermEntry};
use index::{Column, Records};

// The term with number n.
pub fn term_at(records: Records<'_>, n: u32) -> TermEntry<'_>
    ensures is { TermAt records.entry.file.now (cell records.entry.work.now records.entry.sizes.rows term_offset n) result }
    ensures fits { TermFits result }
{
    terms::term_at(records.file, records.get(Column::TermOffset, n))
}
