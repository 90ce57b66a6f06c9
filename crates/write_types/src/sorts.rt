// Sorts of types.
ghost use Rattle.script_spec.specs.Spelling.{ext_name};
ghost use Rattle.refusal.specs.Numbers.{option_of};
ghost use Rattle.write_bytes.specs.Writers.{Writes};
ghost use Rattle.index.specs.Cells.{cell, type_offset};
ghost use Rattle.index_entry.specs.Types.{ext_type_said};
ghost use Rattle.write_types.specs.Sorts.{OverAt, opened_part, plain_sort, SpellsSort};

use index::{Column, Records};
use index_entry::types::{ExtType, TypeEntry};
use walk_names::naming::{self, Named};
use write_bytes::writer::Writer;

// What has a part: an option or a set.
#[derive(Clone, Copy)]
pub enum Whole {
    Option,
    Set,
}

// What a type stands over: the part of an option or of a set, by its number; the type of truth values is told apart.
#[derive(Clone, Copy)]
pub enum Over {
    Part(Whole, u32),
    Truth,
    Nothing,
}

// What the type with number t stands over.
fn stands_over(records: Records<'_>, t: u32) -> Over
    ensures { OverAt records.entry.file.now (cell records.entry.work.now records.entry.sizes.rows type_offset t) result }
{
    let offset = records.get(Column::TypeOffset, t);
    match index_entry::records::letter_at(records.file, offset) {
        b'B' => Over::Truth,
        b'C' => Over::Part(
            Whole::Set,
            index_entry::types::part_at(records.file, offset),
        ),
        b'O' => Over::Part(
            Whole::Option,
            index_entry::types::part_at(records.file, offset),
        ),
        _ => Over::Nothing,
    }
}

// The name of an extension type.
fn put_ext_name(w: &mut Writer<'_>, x: ExtType)
    ensures { Writes w.old w.new (ext_name (ext_type_said x)) }
{
    match x {
        ExtType::IPAddr => w.put(b"IPAddr"),
        ExtType::Decimal => w.put(b"Decimal"),
        ExtType::Datetime => w.put(b"Datetime"),
        ExtType::Duration => w.put(b"Duration"),
    }
}

// The sort of a type that stands over no part, by its name where it has one.
fn put_plain_sort(w: &mut Writer<'_>, ty: TypeEntry<'_>, name: Option<u32>)
    ensures { Writes w.old w.new (plain_sort ty.entry (option_of name)) }
{
    match ty {
        TypeEntry::Bool => w.put(b"Bool"),
        TypeEntry::String => w.put(b"String"),
        TypeEntry::BitVec(n) => write_bitvec::spelling::put_bitvec_sort(w, n),
        TypeEntry::Entity(_) => naming::put_name(w, b'E', name),
        TypeEntry::Ext(x) => put_ext_name(w, x),
        TypeEntry::Record(_) => naming::put_name(w, b'R', name),
        TypeEntry::Option(_) | TypeEntry::Set(_) | TypeEntry::Unreadable => {}
    }
}

// What stands before the part of an option or of a set.
fn put_opened(w: &mut Writer<'_>, whole: Whole)
    ensures { Writes w.old w.new (opened_part whole) }
{
    match whole {
        Whole::Option => w.put(b"(Option "),
        Whole::Set => w.put(b"(Set "),
    }
}

// Writes the sort of the type with number t, which stands over no part. Out of line it takes no stack where a type stands over others.
#[inline(never)]
fn put_sole_sort(records: &Records<'_>, w: &mut Writer<'_>, t: u32)
    ensures { OverAt records.now.file.now (cell records.now.work.now records.now.sizes.rows type_offset t) Over.Nothing → SpellsSort records.now t w.old w.new }
{
    let name = naming::get(*records, Named::Types, t);
    put_plain_sort(w, index_entry::numbered::type_at(*records, t), name)
}

// Writes the sort of the type with number t, and nothing past the limit. A part has a lower number. The records are lent, so that no
// call of those in one another has a copy of them.
fn put_sort_by(records: &Records<'_>, w: &mut Writer<'_>, t: u32)
    ensures { SpellsSort records.now t w.old w.new }
{
    if w.is_past() {
        return;
    }
    match stands_over(*records, t) {
        Over::Truth => w.put(b"Bool"),
        Over::Nothing => put_sole_sort(records, w, t),
        Over::Part(whole, part) => {
            if t <= part {
                return;
            }
            put_opened(w, whole);
            put_sort_by(records, w, part);
            w.put_byte(b')')
        }
    }
}

// Writes the sort of the type with number t, and nothing past the limit.
pub fn put_sort(records: Records<'_>, w: &mut Writer<'_>, t: u32)
    ensures { SpellsSort records.entry t w.old w.new }
{
    put_sort_by(&records, w, t)
}
