// The search for a record that is equal to one, among the types, the functions or the terms.
ghost use Rattle.std.specs.Prelude.{◌≡◌, ℕ, Some, None};
ghost use Rattle.index.specs.Cells.{number, cell};
ghost use Rattle.index_search.specs.Tables.{table_of, slot_kind, offsets_of, firsts_of, counted};
ghost use Rattle.index_search.specs.Sets.{SetAt};
ghost use Rattle.index_search.specs.Found.{SameAt, EnrolsIn};

use crate::sets::{EqualSet, Listed};
use crate::slots::{Table, Test};
use crate::{sets, slots};
use check_rules::repeats;
use index::{Column, Records, RecordsMut, Sizes};

// The tables of records that are searched by marks and bodies.
#[derive(Clone, Copy)]
pub enum Compared {
    Types,
    Funs,
    Terms,
}

// What a search goes by: the table that the slots hold, the columns of the offsets of the records and of the numbers of their first equal
// records, and how many records there are.
#[derive(Drop)]
struct Searched {
    table: Table,
    offsets: Column,
    firsts: Column,
    count: u32,
}

impl Compared {
    // What it is searched by.
    fn searched(self, sizes: Sizes) -> Searched
        ensures table { result.table ≡ table_of self }
        ensures offsets { number result.offsets ≡ offsets_of self }
        ensures firsts { number result.firsts ≡ firsts_of self }
        ensures count { result.count ≡ counted self sizes }
    {
        match self {
            Compared::Types => Searched {
                table: Table::Types,
                offsets: Column::TypeOffset,
                firsts: Column::TypeFirst,
                count: sizes.types,
            },
            Compared::Funs => Searched {
                table: Table::Funs,
                offsets: Column::FunOffset,
                firsts: Column::FunFirst,
                count: sizes.funs,
            },
            Compared::Terms => Searched {
                table: Table::Terms,
                offsets: Column::TermOffset,
                firsts: Column::TermFirst,
                count: sizes.terms,
            },
        }
    }
}

// Whether the records at two offsets, the second no set, are equal: the same mark, and bodies that agree by the index. Out of line, since most searches meet no record.
#[inline(never)]
fn same_at(records: Records<'_>, offset: usize, other: usize) -> bool
    ensures { SameAt records.entry.file.now records.entry.work.now records.entry.sizes.rows offset other result }
{
    crate::octets(records.file);
    index_compare::record::same_mark(records.file, offset, other)
        && index_compare::compare::same_record(records, offset, other)
}

// The records whose offsets a column has and that are equal to the one at an offset, which is no set.
#[derive(Drop)]
struct EqualTo {
    offsets: Column,
    offset: usize,
}

impl Test for EqualTo {
    ghost tells = { λ equal records n r. SameAt records.file.now records.work.now records.sizes.rows (cell records.work.now records.sizes.rows (number equal.offsets) n) equal.offset r };

    fn is(&self, records: Records<'_>, n: u32) -> bool {
        same_at(records, records.get(self.offsets, n) as usize, self.offset)
    }
}

// The number of the first record of a table that is equal to one that is no set; where there is none, how many the table has, and a slot is taken
// for the record with that number.
fn enrol_plain(records: &mut RecordsMut<'_>, table: Compared, offset: usize) -> u32
    ensures { SetAt records.old.file.now offset None → EnrolsIn records.old records.new (offsets_of table) (firsts_of table) (slot_kind (table_of table)) (counted table records.old.sizes) offset result }
{
    let searched = table.searched(records.sizes);
    let count = searched.count;
    let b = slots::home(records.view(), offset);
    let equal = EqualTo {
        offsets: searched.offsets,
        offset,
    };
    match slots::enrol(records, searched.table, count, b, &equal) {
        Some(n) => records.get(searched.firsts, n),
        None => count,
    }
}

// The same for a set: its elements are noted while the slots are gone through, and a slot is taken when the notes are cleared.
fn enrol_set(records: &mut RecordsMut<'_>, table: Compared, set: Listed<'_>) -> u32
    ensures { (o : ℕ) → SetAt records.old.file.now o (Some set.entry) → EnrolsIn records.old records.new (offsets_of table) (firsts_of table) (slot_kind (table_of table)) (counted table records.old.sizes) o result }
{
    let searched = table.searched(records.sizes);
    let count = searched.count;
    let hash = sets::set_hash(records.view(), set);
    let b = slots::scale(records.sizes.rows, hash);
    let equal = EqualSet {
        offsets: searched.offsets,
        ty: records.get(Column::TypeFirst, set.ty),
        count: set.count,
    };
    let noted = repeats::note(set.elements, records, set.count);
    let met = slots::probe(records.view(), searched.table, count, b, &equal);
    repeats::clear(set.elements, records, noted);
    match met {
        Ok(n) => records.get(searched.firsts, n),
        Err(d) => {
            slots::take(records, searched.table, count, b, d);
            count
        }
    }
}

// The number of the first record of a table that is equal to the one at an offset; where there is none, how many the table has, and a slot is
// taken for the record with that number.
pub fn enrol(records: &mut RecordsMut<'_>, table: Compared, offset: usize) -> u32
    ensures { EnrolsIn records.old records.new (offsets_of table) (firsts_of table) (slot_kind (table_of table)) (counted table records.old.sizes) offset result }
{
    match sets::set_at(records.file, offset) {
        Some(set) => enrol_set(records, table, set),
        None => enrol_plain(records, table, offset),
    }
}
