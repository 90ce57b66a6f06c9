// The first type that a record refers to: at the start of its body, where its mark tells that a reference stands there.
ghost use Rattle.std.specs.Prelude.{◌≡◌, map, get_or};
ghost use Rattle.index.specs.Cells.{number};
ghost use Rattle.index_compare.specs.Machine.{ahead, remaining, walk_start};
ghost use Rattle.index_compare.specs.View.{segments_at, reference_numbers, viewed};
ghost use Rattle.index_compare.specs.Shape.{Opens, first_cell};

use crate::compare::{View, byte_after, viewed};
use crate::record::{body_at, first_letter};
use crate::segments::{Referent, Segment, Segments, read_word};
use crate::shape::{Shape, shape_by};
use index::{Column, Records};

// The column of the first type of a body for the reference that it begins with, if the two bytes of its mark tell that it does.
fn opening_of(a: u8, b: u8) -> Option<Column>
    ensures { Opens (walk_start a b) result }
{
    match a {
        b'T' => opening_type(b),
        b'X' => opening_term(b),
        _ => None,
    }
}

// Of the body of a type.
#[tactic(auto, unfolding(crate::specs::Machine::walk_start, crate::specs::Machine::start_type))]
fn opening_type(b: u8) -> Option<Column>
    ensures { Opens (walk_start 84 b) result }
{
    match b {
        b'O' | b'C' => Some(Column::TypeFirst),
        _ => None,
    }
}

// Of the body of a term.
#[tactic(auto, unfolding(crate::specs::Machine::walk_start, crate::specs::Machine::start_term, crate::specs::Machine::start_list))]
fn opening_term(b: u8) -> Option<Column>
    ensures { Opens (walk_start 88 b) result }
{
    match b {
        b'A' | b'C' | b'E' | b'0' => Some(Column::TypeFirst),
        b'1' => Some(Column::TermType),
        _ => None,
    }
}

// The entry of a column for the reference at the start of a body, 0 where there is none.
#[tactic(auto, unfolding(crate::specs::Shape::first_cell))]
fn first_cell(records: Records<'_>, body: &[u8], column: Column) -> u32
    ensures { result ≡ first_cell body.now records.entry.work.now records.entry.sizes.rows (number column) }
{
    match read_word(body, 0) {
        Some(n) => records.get(column, n),
        None => 0,
    }
}

// The first number ahead that stands for a type where types are listed, 0 where there is none.
fn first_ahead(records: Records<'_>, rest: Segments<'_>) -> u32
    ensures { result ≡ get_or (reference_numbers 2 (map (viewed records.entry.work.now records.entry.sizes.rows View.Listed) (ahead rest.entry))) 0 0 }
{
    for s in rest {
        if let Segment::Reference(found, n) = viewed(records, View::Listed, s) {
            if found == Referent::Type {
                return n;
            }
        }
    }
    0
}

// The first type in a body, by the shape that the two bytes of its mark give it, or by a walk. It is rare, and out of line it keeps `first_reference` short.
#[inline(never)]
fn first_shaped(records: Records<'_>, a: u8, b: u8, body: &[u8]) -> u32
    ensures { result ≡ get_or (reference_numbers 2 (map (viewed records.entry.work.now records.entry.sizes.rows View.Listed) (remaining (walk_start a b) body.now))) 0 0 }
{
    match shape_by(a, b, body) {
        Some(Shape::Named(_, t)) => records.get(Column::TypeFirst, t),
        _ => first_ahead(records, Segments::of(a, b, body)),
    }
}

// The first type that a record refers to, or that a term has to which it refers, by the number of the first equal type; 0 where there is none.
#[inline(always)]
pub fn first_reference(records: Records<'_>, offset: usize) -> u32
    ensures { result ≡ get_or (reference_numbers 2 (map (viewed records.entry.work.now records.entry.sizes.rows View.Listed) (segments_at records.entry.file.now offset))) 0 0 }
{
    let body = body_at(records.file, offset);
    let a = first_letter(records.file, offset);
    let b = byte_after(records.file, offset);
    match opening_of(a, b) {
        Some(column) => first_cell(records, body, column),
        None => first_shaped(records, a, b, body),
    }
}
