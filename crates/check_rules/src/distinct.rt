// Terms of a list that differ, by the numbers of first equal terms.
ghost use Rattle.script_spec.specs.Fields.{u32};
ghost use Rattle.check_rules.specs.Decided.{DecidesItems, LeavesMemory};
ghost use Rattle.check_rules.specs.Tests.{any_first, different_terms};

use index::{Column, Records, RecordsMut};
use read_field::Cursor;

// Whether one of so many references has a first equal number.
fn any_first(rest: Cursor<'_>, records: Records<'_>, first: u32, count: u32) -> bool
    ensures { DecidesItems u32 (any_first records.entry.work.now records.entry.sizes.rows first) rest.entry.body.now rest.entry.at count result }
{
    let mut c = rest;
    for _ in 0..count {
        let Ok((n, after)) = c.u32_le() else {
            return false;
        };
        if records.get(Column::TermFirst, n) == first {
            return true;
        }
        c = after;
    }
    false
}

// Whether no two of so many references have the same first equal number, each compared with the others.
fn differ_in_pairs(rest: Cursor<'_>, records: Records<'_>, count: u32) -> bool
    ensures { DecidesItems u32 (different_terms records.entry.work.now records.entry.sizes.rows) rest.entry.body.now rest.entry.at count result }
{
    let mut c = rest;
    for i in 0..count {
        let Ok((n, after)) = c.u32_le() else {
            return true;
        };
        let first = records.get(Column::TermFirst, n);
        if any_first(after, records, first, count - i - 1) {
            return false;
        }
        c = after;
    }
    true
}

// Whether no two of so many references have the same first equal number; the memory is as it was.
pub fn differ(rest: Cursor<'_>, records: &mut RecordsMut<'_>, count: u32) -> bool
    ensures { LeavesMemory records.old records.new (DecidesItems u32 (different_terms records.old.work.now records.old.sizes.rows) rest.entry.body.now rest.entry.at count result) }
{
    match crate::repeats::repeats(rest, records, count) {
        Some(repeated) => !repeated,
        None => differ_in_pairs(rest, records.view(), count),
    }
}
