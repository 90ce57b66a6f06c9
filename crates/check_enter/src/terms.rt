// Entering a term into the index.
ghost use Rattle.std.specs.Prelude.{Some};
ghost use Rattle.script_spec.specs.File.{term};
ghost use Rattle.index.specs.Standing.{mark_at};
ghost use Rattle.read_record.specs.Marks.{Marked};
ghost use Rattle.check_enter.specs.Entering.{Keeps, Enters};
ghost use Rattle.check_enter.specs.Terms.{StoresTerm, WritesOther, EntersTyped};

use crate::{DEEPEST_PART, MOST};
use index::{Column, NewTerm, Records, RecordsMut};
use index_compare::compare::{byte_at, greatest};
use index_compare::segments::Referent;
use index_entry::records::number_at;
use index_search::search::Compared;
use read_record::mark::{Kind, is_typed};
use refusal::Refusal;

// Stores the row of a term, with the number of its type, its depth and its place, and without a note, and counts it. Its place is how many records
// there are before it.
fn store_term(records: &mut RecordsMut<'_>, offset: u32, ty: u32, depth: u32)
    ensures { StoresTerm records.old records.new offset ty depth }
{
    let n = records.sizes.terms;
    let place = records.sizes.together();
    let first = index_search::search::enrol(records, Compared::Terms, offset as usize);
    let row = NewTerm {
        offset,
        first,
        ty,
        depth,
        place,
    };
    records.set_term(n, row);
    records.sizes.terms = n.saturating_add(1);
}

// Whether a type is written in the term at an offset that is another than the type of this number, the first of its equals. The record's last four
// bytes are its number.
fn writes_other(records: Records<'_>, offset: u32, ty: u32) -> bool
    ensures { WritesOther records.entry.file.now records.entry.work.now records.entry.sizes.rows offset ty result }
{
    let at = offset as usize;
    if !is_typed(byte_at(records.file, at)) {
        return false;
    }
    let size = number_at(records.file, at + 2) as usize;
    let n = number_at(records.file, at + 2 + size);
    records.get(Column::TypeFirst, n) != ty
}

// Enters a term of this kind; `found` says its type.
fn enter_typed(
    records: &mut RecordsMut<'_>,
    offset: u32,
    kind: Kind,
    found: Option<u32>,
) -> Result<(), Refusal>
    ensures { EntersTyped records.old records.new offset kind found result }
{
    index_search::octets(records.file);
    let deepest = greatest(records.view(), offset as usize, Referent::Term);
    check_rules::terms::broken_rule(records, offset as usize, kind, deepest)?;
    let ty = found.ok_or(Refusal::TypeNotListed)?;
    if writes_other(records.view(), offset, ty) {
        return Err(Refusal::WrongType);
    }
    if MOST <= records.sizes.terms {
        return Err(Refusal::TooMany);
    }
    if DEEPEST_PART < deepest {
        return Err(Refusal::TooMany);
    }
    store_term(records, offset, ty, deepest + 1);
    Ok(())
}

// Enters the term at an offset, of this kind.
pub fn enter_term(records: &mut RecordsMut<'_>, offset: u32, kind: Kind) -> Result<(), Refusal>
    ensures kept { Keeps records.old records.new }
    ensures entered { Marked (mark_at records.old.file.now offset) (Some kind) → Enters term records.old records.new offset result }
{
    let found = check_types::type_of(records.view(), offset as usize, kind);
    enter_typed(records, offset, kind, found)
}
