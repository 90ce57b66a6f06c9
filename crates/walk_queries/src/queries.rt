// What the encoder asks of types and terms: what a `Bvnego` is written as, and where an attribute or a member stands.
ghost use Rattle.walk_queries.specs.Searches.{FindsAttribute, IsEnumType, FindsIn, FindsMember};
ghost use Rattle.walk_queries.specs.Negations.{IsNego, IsBool, NegationOver, Negates, OtherCode, IsOther, NegationOf};

use crate::positions;
use index::{Column, Records};
use index_entry::records::{body_at, letter_at};
use index_entry::terms::{self, Children, TermEntry};
use index_entry::types::TypeEntry;
use index_entry::{numbered, symbols};
use read_operator::Op;
use refusal::Refusal;

// What a term is as a `Bvnego`: over an argument of so many bits a comparison, over any other `false`.
#[derive(Clone, Copy)]
pub enum Negated {
    Ordinary,
    Falsehood,
    Comparison(u32),
}

// Where a member stands in a type, if the type is an enum.
#[derive(Clone, Copy)]
pub enum Member {
    NoEnum,
    NotMember,
    At(u32),
}

// Whether an operator is `Bvnego`.
pub fn is_nego(op: Op<'_>) -> bool
    ensures { IsNego op.entry result }
{
    matches!(op, Op::Bvnego)
}

// Whether the type with number t is Bool.
fn is_bool(records: Records<'_>, t: u32) -> bool
    ensures { IsBool records.entry.file.now records.entry.work.now records.entry.sizes t result }
{
    matches!(numbered::type_at(records, t), TypeEntry::Bool)
}

// What a `Bvnego` with result Bool is over one argument of the type with number t.
fn negation_over(records: Records<'_>, t: u32) -> Negated
    ensures { NegationOver records.entry.file.now records.entry.work.now records.entry.sizes t result }
{
    match numbered::type_at(records, t) {
        TypeEntry::BitVec(n) => Negated::Comparison(n),
        _ => Negated::Falsehood,
    }
}

// What a `Bvnego` is whose result has the type with number t.
fn negation_with(records: Records<'_>, t: u32, mut c: Children<'_>) -> Negated
    ensures { Negates records.entry.file.now records.entry.work.now records.entry.sizes t c.entry result }
{
    if c.left != 1 || !is_bool(records, t) {
        return Negated::Ordinary;
    }
    match c.next() {
        Some(child) => negation_over(records, records.get(Column::TermType, child)),
        None => Negated::Ordinary,
    }
}

// Whether the body of an application has the code of another operator than `Bvnego`.
pub fn is_other_code(body: &[u8]) -> bool
    ensures { OtherCode body.now result }
{
    index_compare::compare::byte_at(body, 4) != read_operator::BVNEGO
}

// Whether the record at an offset is no `Bvnego`, as far as its mark and its operator's code tell.
fn is_other(file: &[u8], offset: u32) -> bool
    ensures { IsOther file.now offset result }
{
    letter_at(file, offset) != b'A' || is_other_code(body_at(file, offset))
}

// What the term with number n is as a `Bvnego`, by all that its record has.
#[inline(never)]
fn negation_read(records: Records<'_>, n: u32) -> Negated
    ensures { NegationOf records.entry.file.now records.entry.work.now records.entry.sizes n result }
{
    let offset = records.get(Column::TermOffset, n);
    let TermEntry::App(t, op, c) = terms::term_at(records.file, offset) else {
        return Negated::Ordinary;
    };
    if !is_nego(op) {
        return Negated::Ordinary;
    }
    negation_with(records, t, c)
}

// What the term with number n is as a `Bvnego`. The record of another term is not read in full.
pub fn negation_of(records: Records<'_>, n: u32) -> Negated
    ensures { NegationOf records.entry.file.now records.entry.work.now records.entry.sizes n result }
{
    if is_other(records.file, records.get(Column::TermOffset, n)) {
        return Negated::Ordinary;
    }
    negation_read(records, n)
}

// Where an attribute stands in the type with number t.
pub fn index_of_attr(records: Records<'_>, t: u32, name: &[u8]) -> Result<u32, Refusal>
    ensures { FindsAttribute records.entry.file.now records.entry.work.now records.entry.sizes t name.now result }
{
    let TypeEntry::Record(attributes) = numbered::type_at(records, t) else {
        return Err(Refusal::NotRecord);
    };
    let list = records.get(Column::TypeList, t);
    positions::find(records, list, attributes.names(), name).ok_or(Refusal::NoAttribute)
}

// The number of the enum that the type with number t is, if it is one.
fn enum_of(records: Records<'_>, t: u32) -> Option<u32>
    ensures { IsEnumType records.entry.file.now records.entry.work.now records.entry.sizes t result }
{
    match numbered::type_at(records, t) {
        TypeEntry::Entity(_) => {
            let e = records.get(Column::TypeList, t);
            (e < records.sizes.enums).then_some(e)
        }
        _ => None,
    }
}

// Where a member stands in the enum with number e.
fn find_in(records: Records<'_>, e: u32, id: &[u8]) -> Option<u32>
    ensures { FindsIn records.entry.file.now records.entry.work.now records.entry.sizes e id.now result }
{
    let members = symbols::enum_at(records.file, records.get(Column::EnumOffset, e));
    positions::find(records, records.get(Column::EnumList, e), members, id)
}

// Where a member stands in the type with number t.
pub fn find_member(records: Records<'_>, t: u32, id: &[u8]) -> Member
    ensures { FindsMember records.entry.file.now records.entry.work.now records.entry.sizes t id.now result }
{
    let Some(e) = enum_of(records, t) else {
        return Member::NoEnum;
    };
    match find_in(records, e, id) {
        Some(i) => Member::At(i),
        None => Member::NotMember,
    }
}
