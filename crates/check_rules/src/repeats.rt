// Whether two of the references of a list are to equal terms: each first equal number is noted in a column that check does not need, and
// the notes are cleared again. While they stand, they say of another list whether its elements are among the noted ones.
ghost use Rattle.std.specs.Prelude.{◌≡◌};
ghost use Rattle.index_compare.specs.View.{Decides};
ghost use Rattle.check_rules.specs.Repeats.{ref_at, first_at, Notes, Clears, AllNoted, SameEarlier, Tells};

use index::{Column, Records, RecordsMut};
use read_field::Cursor;

// The reference with number i of those at a cursor, 0 where there is none.
fn ref_at(list: Cursor<'_>, i: u32) -> u32
    ensures { result ≡ ref_at list.entry.body.now list.entry.at i }
{
    let Ok((_, here)) = list.part(4 * (i as usize)) else {
        return 0;
    };
    match here.u32_le() {
        Ok((n, _)) => n,
        Err(_) => 0,
    }
}

// The first equal number of the reference with number i.
pub fn first_at(list: Cursor<'_>, records: Records<'_>, i: u32) -> u32
    ensures { result ≡ first_at list.entry.body.now records.entry.work.now records.entry.sizes.rows list.entry.at i }
{
    records.get(Column::TermFirst, ref_at(list, i))
}

// Notes the first equal numbers of so many references, up to one that has a note; answers how many.
pub fn note(list: Cursor<'_>, records: &mut RecordsMut<'_>, count: u32) -> u32
    ensures { Notes list.entry.body.now records.old records.new list.entry.at count result }
{
    let rows = records.sizes.rows;
    if records.work.len() / index::COLUMNS < rows {
        return 0;
    }
    for i in 0..count {
        let f = first_at(list, records.view(), i);
        if rows <= f as usize {
            return i;
        }
        if records.get(Column::Note, f) != 0 {
            return i;
        }
        records.set(Column::Note, f, i + 1);
    }
    count
}

// Clears the notes of the first n references, the last one first.
pub fn clear(list: Cursor<'_>, records: &mut RecordsMut<'_>, n: u32)
    ensures { Clears list.entry.body.now records.old records.new list.entry.at n }
{
    for i in (0..n).rev() {
        let f = first_at(list, records.view(), i);
        records.set(Column::Note, f, 0);
    }
}

// Whether the first equal numbers of so many references all have a note.
pub fn noted(list: Cursor<'_>, records: Records<'_>, count: u32) -> bool
    ensures { Decides result (AllNoted list.entry.body.now records.entry.work.now records.entry.sizes.rows list.entry.at count) }
{
    for i in 0..count {
        let f = first_at(list, records, i);
        if records.get(Column::Note, f) == 0 {
            return false;
        }
    }
    true
}

// Whether the reference before number v, which is one of the first n, is equal to the reference n.
fn same_earlier(list: Cursor<'_>, records: Records<'_>, v: u32, n: u32) -> bool
    ensures { SameEarlier list.entry.body.now records.entry.work.now records.entry.sizes.rows list.entry.at n result }
{
    if v == 0 || n < v {
        return false;
    }
    first_at(list, records, v - 1) == first_at(list, records, n)
}

// Whether two of so many references have the same first equal number, where that is told: it is not where the column had other notes. The
// memory is as it was.
pub fn repeats(list: Cursor<'_>, records: &mut RecordsMut<'_>, count: u32) -> Option<bool>
    ensures { Tells list.entry.body.now records.old records.new list.entry.at count result }
{
    let n = note(list, records, count);
    if n == count {
        clear(list, records, n);
        return Some(false);
    }
    let f = first_at(list, records.view(), n);
    let v = records.get(Column::Note, f);
    clear(list, records, n);
    if same_earlier(list, records.view(), v, n) {
        return Some(true);
    }
    None
}
