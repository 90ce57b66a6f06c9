// Reading a record's body: its fields in their order, the first bad one deciding, and no bytes left over.
ghost use Rattle.std.specs.Prelude.{◌≡◌};
ghost use Rattle.script_spec.specs.Fields.{value};
ghost use Rattle.read_field.specs.Reads.{skim, chosen};
ghost use Rattle.read_field.specs.Takes.{Takes, moved_of};
ghost use Rattle.read_record.specs.Fields.{entity, value_below, bit_vec_field, addressed, values, field_reader};
ghost use Rattle.read_record.specs.Bodies.{is_entity_at, earlier_with, verdict_as, body_read, marked_read};

use crate::fields::Field;
use crate::mark::Kind;
use crate::{Earlier, fields};
use read_field::Cursor;
use refusal::Refusal;

// A reference to a `TE`.
fn entity<'a>(c: Cursor<'a>, count: u32, earlier: Earlier<'_>) -> Result<Cursor<'a>, Refusal>
    ensures { Takes (entity (is_entity_at earlier.entry.file.now earlier.entry.offsets.now) count) c.entry (moved_of result) }
{
    let (n, rest) = c.reference(count)?;
    if !earlier.is_entity(n) {
        return Err(Refusal::NoSuchRecord);
    }
    Ok(rest)
}

// 16 bytes, low byte first, below 2^width.
fn below<'a>(c: Cursor<'a>, width: u32) -> Result<Cursor<'a>, Refusal>
    ensures { Takes (value_below width) c.entry (moved_of result) }
{
    let (s, rest) = c.part(16)?;
    if !write_bitvec::fits(width, write_bitvec::reading::low_first(s)) {
        return Err(Refusal::OutOfRange);
    }
    Ok(rest)
}

// A bit vector's width and value.
fn bit_vec<'a>(c: Cursor<'a>) -> Result<Cursor<'a>, Refusal>
    ensures { Takes bit_vec_field c.entry (moved_of result) }
{
    let (width, rest) = c.width()?;
    below(rest, width)
}

// An address of so many bytes and its prefix.
fn address<'a>(c: Cursor<'a>, size: usize, bound: u32) -> Result<Cursor<'a>, Refusal>
    ensures { Takes (addressed size bound) c.entry (moved_of result) }
{
    let (_, rest) = c.part(size)?;
    Ok(rest.prefix(bound)?.1)
}

// What stands after the code of an extension value.
fn coded_value<'a>(c: Cursor<'a>, code: u32) -> Result<Cursor<'a>, Refusal>
    ensures { Takes (skim (chosen values code)) c.entry (moved_of result) }
{
    match code {
        0 => address(c, 4, 32),
        1 => address(c, 16, 128),
        2..=4 => Ok(c.part(8)?.1),
        _ => Err(Refusal::OutOfRange),
    }
}

// An extension value.
fn ext_value<'a>(c: Cursor<'a>) -> Result<Cursor<'a>, Refusal>
    ensures { Takes (skim value) c.entry (moved_of result) }
{
    let (code, rest) = c.byte()?;
    coded_value(rest, code)
}

// One field.
#[inline(always)]
fn skip<'a>(c: Cursor<'a>, field: Field, earlier: Earlier<'_>) -> Result<Cursor<'a>, Refusal>
    ensures { Takes (field_reader (is_entity_at earlier.entry.file.now earlier.entry.offsets.now) field) c.entry (moved_of result) }
{
    match field {
        Field::Nothing => Ok(c),
        Field::Text => Ok(c.text()?.1),
        Field::Width => Ok(c.width()?.1),
        Field::Code(n) => Ok(c.code(n)?.1),
        Field::Reference(n) => Ok(c.reference(n)?.1),
        Field::Entity(n) => entity(c, n, earlier),
        Field::Number => bit_vec(c),
        Field::Value => ext_value(c),
        Field::Operator(n) => Ok(read_operator::operator(c, n)?.1),
        Field::List(item) => read_field::list::list(c, item),
    }
}

// The body of a record of a kind, after what stands before it; `typed` is whether a type is written behind its fields.
pub(crate) fn read_under(
    kind: Kind,
    typed: bool,
    body: &[u8],
    earlier: Earlier<'_>,
) -> Result<(), Refusal>
    ensures { verdict_as result ≡ body_read (earlier_with earlier.entry.types earlier.entry.funs earlier.entry.terms earlier.entry.file.now earlier.entry.offsets.now) typed kind body.now }
{
    let all = fields::row_of(kind, earlier);
    let first = skip(Cursor::new(body), all.0, earlier)?;
    let second = skip(first, all.1, earlier)?;
    let third = skip(second, all.2, earlier)?;
    let last = skip(third, fields::final_field(earlier.types, typed), earlier)?;
    if last.left() == 0 {
        Ok(())
    } else {
        Err(Refusal::Misfit)
    }
}

// The body of a record by the kind of its mark; under two bytes that are no mark it is refused.
pub fn read_body(
    kind: Option<Kind>,
    typed: bool,
    body: &[u8],
    earlier: Earlier<'_>,
) -> Result<(), Refusal>
    ensures { verdict_as result ≡ marked_read (earlier_with earlier.entry.types earlier.entry.funs earlier.entry.terms earlier.entry.file.now earlier.entry.offsets.now) typed kind body.now }
{
    match kind {
        None => Err(Refusal::UnknownMark),
        Some(kind) => read_under(kind, typed, body, earlier),
    }
}
