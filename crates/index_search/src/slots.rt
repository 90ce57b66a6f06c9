// The hash table in the index's last column: a slot holds nothing, or the table and the number of a record. A search goes from the home slot
// of what is looked for to the first empty slot.
ghost use Rattle.std.specs.Prelude.{◌≡◌, ◌<◌, ◌-◌, ◌/◌, ℕ, Bool, eqb};
ghost use Rattle.index.specs.Cells.{cell, store, hash};
ghost use Rattle.index.specs.Names.{slot, code_of};
ghost use Rattle.index.specs.declared.Records.{Records};
ghost use Rattle.index_search.specs.Tables.{slot_kind};
ghost use Rattle.index_search.specs.Storing.{Scales, Home, NameHome, FirstEmpty, Stores};
ghost use Rattle.index_search.specs.Probed.{Viewed, Probes, SlotTaken, TakesSlot};

use index::{Column, Records, RecordsMut};

// The tables of records that slots hold.
#[derive(Clone, Copy)]
pub enum Table {
    Types,
    Funs,
    Terms,
    Enums,
}

impl Table {
    // The number that the slots have for the kind of the records.
    pub fn kind(self) -> u32
        ensures { result ≡ slot_kind self }
    {
        self as u32
    }
}

// What a slot holds for the record of a kind with number n.
fn code_of(n: u32, kind: u32) -> u64
    ensures { result ≡ code_of n kind }
{
    4 * u64::from(n) + u64::from(kind) + 1
}

// The same as an entry of the index, 0 where it does not fit.
pub fn code(n: u32, kind: u32) -> u32
    ensures { n < 1048576 → kind < 4 → result ≡ code_of n kind }
{
    u32::try_from(code_of(n, kind)).unwrap_or(0)
}

// The number that a slot holds.
pub fn number_of(v: u32) -> u32
    ensures { result ≡ (v - 1) / 4 }
{
    v.saturating_sub(1) / 4
}

// Whether a slot that holds v has the record of a kind with number n.
pub fn has(v: u32, n: u32, kind: u32) -> bool
    ensures { result ≡ eqb v (code_of n kind) }
{
    u64::from(v) == code_of(n, kind)
}

// The slot that comes d steps after slot b, of so many in a ring.
pub fn slot(rows: usize, b: usize, d: usize) -> usize
    ensures { result ≡ slot rows b d }
{
    let left = rows.saturating_sub(b);
    if d < left {
        return b + d;
    }
    d - left
}

// The slot from which a record of a hash is looked for: the hash's square, folded and scaled from 2^64 to the number of rows.
pub fn scale(rows: usize, h: u64) -> usize
    ensures { Scales rows h result }
{
    let (_, high) = crate::hash::folded(h, h).carrying_mul(rows as u64, 0);
    high as usize
}

// The slot from which the record at an offset, which is no set, is looked for.
pub fn home(records: Records<'_>, offset: usize) -> usize
    ensures { Home records.entry.file.now records.entry.work.now records.entry.sizes.rows offset result }
{
    crate::octets(records.file);
    scale(
        records.sizes.rows,
        crate::hash::record_hash(records, offset),
    )
}

// The slot from which the enum of a name is looked for.
pub fn name_home(key: u64, name: &[u8], rows: usize) -> usize
    ensures { NameHome key rows name.now result }
{
    scale(rows, crate::hash::mix_bytes(key, key, name))
}

// How many steps after slot b the first empty slot is, or `rows` where none is empty.
fn first_empty(work: &[u32], rows: usize, b: usize) -> usize
    ensures { FirstEmpty rows (cell work.now rows hash) b result }
{
    for steps in 0..rows {
        let v = index::get(work, rows, Column::Hash.number(), slot(rows, b, steps));
        if v == 0 {
            return steps;
        }
    }
    rows
}

// Stores v in the slot that comes d steps after slot b, which may be the first empty one.
pub fn store_at(work: &mut [u32], rows: usize, b: usize, d: usize, v: u32)
    ensures there { work.new ≡ store work.old rows hash (slot rows b d) v }
    ensures first { FirstEmpty rows (cell work.old rows hash) b d → Stores work.old work.new rows b v }
{
    index::set(work, rows, Column::Hash.number(), slot(rows, b, d), v)
}

// Stores v in the first empty slot from slot b on.
pub fn store(work: &mut [u32], rows: usize, b: usize, v: u32)
    ensures { Stores work.old work.new rows b v }
{
    let d = first_empty(work, rows, b);
    store_at(work, rows, b, d, v)
}

// A test of a record, by its number.
pub trait Test {
    // What the answer tells of the record with a number.
    ghost tells: { Self → Records → ℕ → Bool → Type 0 };

    fn is(&self, records: Records<'_>, n: u32) -> bool
        ensures { tells self.now records.entry n result };
}

// The number of a record of a table, of `count`, for which a test is true, met from slot b on; or that none is met, and how many steps after b
// the first empty slot is.
pub fn probe<T: Test>(
    records: Records<'_>,
    table: Table,
    count: u32,
    b: usize,
    test: &T,
) -> Result<u32, usize>
    ensures { Probes records.entry.work.now records.entry.sizes.rows (slot_kind table) count (T.tells test.now records.entry) b result }
{
    let rows = records.sizes.rows;
    for d in 0..rows {
        let v = records.get_row(Column::Hash, slot(rows, b, d));
        if v == 0 {
            return Err(d);
        }
        let n = number_of(v);
        if n < count && has(v, n, table.kind()) && test.is(records, n) {
            return Ok(n);
        }
    }
    Err(rows)
}

// Takes the slot that comes d steps after slot b for the record of a table with number `count`.
pub fn take(records: &mut RecordsMut<'_>, table: Table, count: u32, b: usize, d: usize)
    ensures { SlotTaken records.old records.new (slot_kind table) count b d }
{
    let rows = records.sizes.rows;
    store_at(&mut *records.work, rows, b, d, code(count, table.kind()))
}

// The number of such a record; where none is met, the first empty slot is taken for the record with number `count`.
pub fn enrol<T: Test>(
    records: &mut RecordsMut<'_>,
    table: Table,
    count: u32,
    b: usize,
    test: &T,
) -> Option<u32>
    ensures { (v : Records) × Viewed records.old v × TakesSlot records.old records.new (slot_kind table) count (T.tells test.now v) b result }
{
    match probe(records.view(), table, count, b, test) {
        Ok(n) => Some(n),
        Err(d) => {
            take(records, table, count, b, d);
            None
        }
    }
}
