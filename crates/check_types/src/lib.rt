// The type of a term among the types that are listed before it, by the slots of the hash table.
#![tactic(auto)]

ghost use Rattle.std.specs.Prelude.{◌≡◌, ℕ, Some};
ghost use Rattle.index.specs.Cells.{cell, type_offset};
ghost use Rattle.index.specs.Standing.{mark_at};
ghost use Rattle.read_record.specs.Marks.{Marked};
ghost use Rattle.check_types.specs.Sought.{width_at, code_at, value_code, mark_letter, Wanted, SoughtBy, TypeSought, SameType};
ghost use Rattle.check_types.specs.Probed.{TypeHash, TypeHome, ListedSought};

use index::{Column, Records};
use index_compare::compare::{byte_at, first_reference, same_listed_type};
use index_compare::record::body_at;
use index_compare::segments::{Referent, Segment};
use index_entry::records::{letter_at, number_at};
use index_search::slots::{Table, Test};
use index_search::{hash, slots};
use read_record::mark::Kind;

// The type of a term that does not refer to it: its width, its code, the number of the type that it is over, or the offset of the record term.
#[derive(Clone, Copy)]
enum Sought {
    Bool,
    String,
    BitVec(u32),
    Extension(u8),
    Option(u32),
    Set(u32),
    Record(usize),
}

// The code of the extension type or value at an offset: the first byte of its body, 0 where there is none.
fn code_at(file: &[u8], offset: usize) -> u8
    ensures { result ≡ code_at file.now offset }
{
    byte_at(body_at(file, offset), 0)
}

// The code of the type of the extension value at an offset.
fn value_code(file: &[u8], offset: usize) -> u8
    ensures { result ≡ value_code file.now offset }
{
    code_at(file, offset).saturating_sub(1)
}

// The width of the bit-vector type or value at an offset.
fn width_at(file: &[u8], offset: usize) -> u32
    ensures { result ≡ width_at file.now offset }
{
    number_at(body_at(file, offset), 0)
}

// What is sought as the type of the term at an offset, of this kind; none where the term refers to its type, and for what is no term.
fn sought_by(records: Records<'_>, offset: usize, kind: Kind) -> Option<Sought>
    ensures { Marked (mark_at records.entry.file.now offset) (Some kind) → SoughtBy records.entry.file.now records.entry.work.now records.entry.sizes.rows offset result }
{
    match kind {
        Kind::XB => Some(Sought::Bool),
        Kind::XS => Some(Sought::String),
        Kind::XN => Some(Sought::BitVec(width_at(records.file, offset))),
        Kind::XX => Some(Sought::Extension(value_code(records.file, offset))),
        Kind::X0 => Some(Sought::Option(first_reference(records, offset))),
        Kind::X1 => Some(Sought::Option(first_reference(records, offset))),
        Kind::XC => Some(Sought::Set(first_reference(records, offset))),
        Kind::XR => Some(Sought::Record(offset)),
        _ => None,
    }
}

impl Sought {
    // The second byte of its mark.
    #[tactic(auto, unfolding(crate::specs::Sought::mark_letter, read_record::specs::Marks::mark, script_spec::proofs::Computes::base))]
    fn letter(self) -> u8
        ensures { result ≡ mark_letter self }
    {
        match self {
            Sought::Bool => b'B',
            Sought::String => b'S',
            Sought::BitVec(_) => b'V',
            Sought::Extension(_) => b'X',
            Sought::Option(_) => b'O',
            Sought::Set(_) => b'C',
            Sought::Record(_) => b'R',
        }
    }

    // Whether the type at an offset is the one that is sought.
    fn is_at(self, records: Records<'_>, other: u32) -> bool
        ensures { (o : ℕ) → Wanted records.entry.file.now records.entry.work.now records.entry.sizes.rows o self → SameType records.entry.file.now records.entry.work.now records.entry.sizes.rows other o result }
    {
        index_search::octets(records.file);
        if letter_at(records.file, other) != self.letter() {
            return false;
        }
        let at = other as usize;
        match self {
            Sought::Bool => true,
            Sought::String => true,
            Sought::BitVec(width) => width_at(records.file, at) == width,
            Sought::Extension(code) => code_at(records.file, at) == code,
            Sought::Option(part) => first_reference(records, at) == part,
            Sought::Set(part) => first_reference(records, at) == part,
            Sought::Record(offset) => same_listed_type(records, at, offset),
        }
    }

    // Its hash.
    fn hash(self, records: Records<'_>) -> u64
        ensures { (o : ℕ) → Wanted records.entry.file.now records.entry.work.now records.entry.sizes.rows o self → TypeHash records.entry.file.now records.entry.work.now records.entry.sizes.rows o result }
    {
        index_search::octets(records.file);
        let key = records.key();
        let letter = self.letter();
        match self {
            Sought::Bool => hash::segment_hash(key, letter, Segment::Plain(&[])),
            Sought::String => hash::segment_hash(key, letter, Segment::Plain(&[])),
            Sought::BitVec(width) => hash::segment_hash(
                key,
                letter,
                Segment::Plain(&width.to_le_bytes()),
            ),
            Sought::Extension(code) => hash::segment_hash(key, letter, Segment::Plain(&[code])),
            Sought::Option(part) => hash::segment_hash(
                key,
                letter,
                Segment::Reference(Referent::Type, part),
            ),
            Sought::Set(part) => hash::segment_hash(
                key,
                letter,
                Segment::Reference(Referent::Type, part),
            ),
            Sought::Record(offset) => hash::listed_hash(key, records, offset),
        }
    }

    // The slot from which it is looked for.
    fn home(self, records: Records<'_>) -> usize
        ensures { (o : ℕ) → Wanted records.entry.file.now records.entry.work.now records.entry.sizes.rows o self → TypeHome records.entry.file.now records.entry.work.now records.entry.sizes.rows o result }
    {
        slots::scale(records.sizes.rows, self.hash(records))
    }
}

impl Test for Sought {
    ghost tells = { λ sought records n r. (o : ℕ) → Wanted records.file.now records.work.now records.sizes.rows o sought → SameType records.file.now records.work.now records.sizes.rows (cell records.work.now records.sizes.rows type_offset n) o r };

    fn is(&self, records: Records<'_>, n: u32) -> bool {
        self.is_at(records, records.get(Column::TypeOffset, n))
    }
}

// The number of the first type that is what is sought.
fn find(records: Records<'_>, sought: Sought) -> Option<u32>
    ensures { (o : ℕ) → Wanted records.entry.file.now records.entry.work.now records.entry.sizes.rows o sought → ListedSought records.entry.file.now records.entry.work.now records.entry.sizes.rows records.entry.sizes.types o result }
{
    let b = sought.home(records);
    let found = slots::probe(records, Table::Types, records.sizes.types, b, &sought);
    Some(records.get(Column::TypeFirst, found.ok()?))
}

// The number of the first type that is equal to the type of the term at an offset, of this kind, if it is listed.
pub fn type_of(records: Records<'_>, offset: usize, kind: Kind) -> Option<u32>
    ensures { Marked (mark_at records.entry.file.now offset) (Some kind) → TypeSought records.entry.file.now records.entry.work.now records.entry.sizes offset result }
{
    index_search::octets(records.file);
    match sought_by(records, offset, kind) {
        Some(sought) => find(records, sought),
        None => Some(first_reference(records, offset)),
    }
}
