// The sets, whose elements are listed in any order: hashed by a sum over the elements, and compared by notes of those of one.
ghost use Rattle.std.specs.Prelude.{◌≡◌};
ghost use Rattle.index.specs.Cells.{number, cell};
ghost use Rattle.index_search.specs.Hash.{element, set_start};
ghost use Rattle.index_search.specs.Sets.{SetAt, SetHash, SameSet};

use crate::hash;
use crate::slots::Test;
use check_rules::repeats;
use index::{Column, Records};
use index_compare::compare::byte_after;
use index_compare::record::{body_at, first_letter};
use read_field::Cursor;

// A set as it stands in the file: its element type, how many elements it has, and the references to them.
#[derive(Clone, Copy)]
pub struct Listed<'a> {
    pub ty: u32,
    pub count: u32,
    pub elements: Cursor<'a>,
}

// The set at an offset, if what stands there is one.
pub fn set_at<'a>(file: &'a [u8], offset: usize) -> Option<Listed<'a>>
    ensures { SetAt file.now offset result }
{
    if first_letter(file, offset) != b'X' || byte_after(file, offset) != b'C' {
        return None;
    }
    let Ok((ty, after)) = Cursor::new(body_at(file, offset)).u32_le() else {
        return None;
    };
    let Ok((count, elements)) = after.u32_le() else {
        return None;
    };
    Some(Listed {
        ty,
        count,
        elements,
    })
}

// The hash that a set starts with, by the first equal number of its element type and how many elements it has.
fn set_start(key: u64, ty: u32, count: u32) -> u64
    ensures { result ≡ set_start key ty count }
{
    let mark = hash::mark_hash(key, b'X', b'C');
    hash::mix(key, hash::mix_reference(key, mark, 2, ty), u64::from(count))
}

// What an element adds to it, by its first equal number.
fn element(key: u64, start: u64, n: u32) -> u64
    ensures { result ≡ element key start n }
{
    let m = hash::mix_reference(key, start, 4, n);
    hash::folded(m, m)
}

// The hash of a set, whatever the order of its elements.
pub fn set_hash(records: Records<'_>, set: Listed<'_>) -> u64
    ensures { SetHash records.entry.work.now records.entry.sizes.rows set.entry result }
{
    let key = records.key();
    let ty = records.get(Column::TypeFirst, set.ty);
    let start = set_start(key, ty, set.count);
    let mut sum = start;
    for i in 0..set.count {
        let n = repeats::first_at(set.elements, records, i);
        let more = element(key, start, n);
        sum = sum.wrapping_add(more);
    }
    sum
}

// Whether a set stands at an offset, with this first equal number of its element type and so many elements, each of which has a note. Out of
// line, since most searches meet no record.
#[inline(never)]
fn same_set(records: Records<'_>, offset: usize, ty: u32, count: u32) -> bool
    ensures { SameSet records.entry.file.now records.entry.work.now records.entry.sizes.rows offset ty count result }
{
    let Some(set) = set_at(records.file, offset) else {
        return false;
    };
    if set.count != count {
        return false;
    }
    if records.get(Column::TypeFirst, set.ty) != ty {
        return false;
    }
    repeats::noted(set.elements, records, count)
}

// The sets whose offsets a column has and that are equal to one whose elements are noted, by the first equal number of its element type and how
// many elements it has.
#[derive(Drop)]
pub struct EqualSet {
    pub offsets: Column,
    pub ty: u32,
    pub count: u32,
}

impl Test for EqualSet {
    ghost tells = { λ equal records n r. SameSet records.file.now records.work.now records.sizes.rows (cell records.work.now records.sizes.rows (number equal.offsets) n) equal.ty equal.count r };

    fn is(&self, records: Records<'_>, n: u32) -> bool {
        same_set(
            records,
            records.get(self.offsets, n) as usize,
            self.ty,
            self.count,
        )
    }
}
