// The lists of the attributes of record types and of the members of enums, made after an accepted file is read. A list is made where
// it has enough texts, and only while its rows fit before those of the terms, with which they share a column. An entity type, which has no
// list, gets the number of its enum where another type has its list, and an option or a set that of the type under all of them.
ghost use Rattle.std.specs.Prelude.{◌≡◌, IfSome, ◌+◌, ◌≤◌};
ghost use Rattle.index.specs.Cells.{number};
ghost use Rattle.index.specs.Held.{Stays};
ghost use Rattle.walk_queries.specs.Made.{RowsOf, Fits, RowsMade, ListAt, UnderAt, NotesSole, ListsType, ListsEnum, MakesLists};

use index::{Column, Records, RecordsMut, Sizes};
use index_entry::lists::{self, Texts};
use index_entry::symbols;
use index_entry::types::{self, TypeEntry};

// Fewer texts than this have no list.
const ENOUGH: u32 = 4;

// How many rows the list of so many texts has.
pub fn rows_of(count: u32) -> u32
    ensures { RowsOf count result }
{
    count.div_ceil(2)
}

// The next free row after so many rows from the next one on, if these fit before those of the terms.
fn fits(sizes: Sizes, next: u32, rows: u32) -> Option<u32>
    ensures { IfSome result (λ end. (end ≡ next + rows) × Fits sizes.rows sizes.terms next rows) }
{
    let end = next.checked_add(rows)?;
    (end < u32::MAX && end as usize + sizes.terms as usize <= sizes.rows).then_some(end)
}

// Notes the place of every second text in so many rows, if all the places fit.
fn fill_rows(records: &mut RecordsMut<'_>, among: Texts<'_>, base: u32, rows: u32) -> bool
    requires { base + rows ≤ records.old.sizes.rows }
    ensures stays { Stays records.old records.new }
    ensures made { RowsMade among.entry.body.now records.old.sizes.rows base rows among.entry.from among.entry.skip records.old.work.now records.new.work.now result }
{
    let mut at = among.from;
    for j in 0..rows {
        let Ok(place) = u32::try_from(at) else {
            return false;
        };
        records.set_row(Column::ListRow, base as usize + j as usize, place);
        let next = lists::after_text(among.body, at, among.skip);
        at = lists::after_text(among.body, next, among.skip);
    }
    true
}

// Makes the list of the record with number n, of these texts. The next free row.
fn list_at(records: &mut RecordsMut<'_>, column: Column, n: u32, next: u32, among: Texts<'_>) -> u32
    ensures stays { Stays records.old records.new }
    ensures made { ListAt among.entry.body.now records.old.sizes.rows records.old.sizes.terms (number column) n among.entry.from among.entry.left among.entry.skip next records.old.work.now result records.new.work.now }
{
    let rows = rows_of(among.left);
    if ENOUGH <= among.left
        && let Some(end) = fits(records.sizes, next, rows)
        && fill_rows(records, among, next, rows)
    {
        records.set(column, n, next + 1);
        return end;
    }
    records.set(column, n, 0);
    next
}

// A type whose notes are made, that the type with number p is, or that is under it where it is an option or a set.
fn under(records: Records<'_>, p: u32) -> u32
    ensures { UnderAt records.entry.file.now records.entry.sizes p records.entry.work.now result }
{
    match types::type_at(records.file, records.get(Column::TypeOffset, p)) {
        TypeEntry::Option(_) => records.get(Column::TypeList, p),
        TypeEntry::Set(_) => records.get(Column::TypeList, p),
        _ => p,
    }
}

// What is noted of a type that is neither an entity type nor a record type: of an option or a set the type that is under its part.
fn note_of(records: Records<'_>, ty: TypeEntry<'_>) -> u32
    ensures { NotesSole records.entry.file.now records.entry.sizes ty.entry records.entry.work.now result }
{
    match ty {
        TypeEntry::Option(p) => under(records, p),
        TypeEntry::Set(p) => under(records, p),
        _ => 0,
    }
}

// The list of the attributes of the type with number t, if it is a record type, or the enum of an entity type: how many enums there are
// where it is none; or the type under an option or a set.
fn list_type(records: &mut RecordsMut<'_>, t: u32, next: u32) -> u32
    ensures stays { Stays records.old records.new }
    ensures made { ListsType records.old.file.now records.old.sizes t next records.old.work.now result records.new.work.now }
{
    let offset = records.get(Column::TypeOffset, t);
    match types::type_at(records.file, offset) {
        TypeEntry::Record(attributes) => {
            list_at(records, Column::TypeList, t, next, attributes.names())
        }
        TypeEntry::Entity(name) => {
            let e = index_search::enums::find(records.view(), name);
            records.set(Column::TypeList, t, e.unwrap_or(records.sizes.enums));
            next
        }
        ty => {
            let note = note_of(records.view(), ty);
            records.set(Column::TypeList, t, note);
            next
        }
    }
}

// The list of the members of the enum with number e.
fn list_enum(records: &mut RecordsMut<'_>, e: u32, next: u32) -> u32
    ensures stays { Stays records.old records.new }
    ensures made { ListsEnum records.old.file.now records.old.sizes.rows records.old.sizes.terms e next records.old.work.now result records.new.work.now }
{
    let offset = records.get(Column::EnumOffset, e);
    let members = symbols::enum_at(records.file, offset);
    list_at(records, Column::EnumList, e, next, members)
}

// The lists of the types and the enums, and the enums of the entity types, so that no entity asks for its enum by a name; in the index of an
// accepted file.
pub fn make_lists(records: &mut RecordsMut<'_>)
    ensures stays { Stays records.old records.new }
    ensures made { MakesLists records.old.file.now records.old.sizes records.old.work.now records.new.work.now }
{
    let sizes = records.sizes;
    let mut next = 0;
    for t in 0..sizes.types {
        next = list_type(records, t, next);
    }
    for e in 0..sizes.enums {
        next = list_enum(records, e, next);
    }
}
