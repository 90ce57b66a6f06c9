// Terms that refer to no terms, by the fields of their bodies; extension values apart.
ghost use Rattle.std.proofs.Math.Option.{some};
ghost use Rattle.script_spec.specs.Base.{bytes};
ghost use Rattle.index_entry.specs.Terms.{IsTerm, TermFits};

use crate::lists::{past_text, text_at};
use crate::records::number_at;
use crate::terms::TermEntry;
use index_compare::compare::byte_at;

// A variable: its id and its type.
pub fn variable(body: &[u8]) -> TermEntry<'_>
    ensures is { IsTerm (some (bytes "XV")) body.now result }
    ensures fits { TermFits result }
{
    let t = number_at(body, past_text(body, 0));
    TermEntry::Var(text_at(body, 0), t)
}

// A truth value: 0 false, 1 true.
pub fn bool_lit(body: &[u8]) -> TermEntry<'_>
    ensures is { IsTerm (some (bytes "XB")) body.now result }
    ensures fits { TermFits result }
{
    match byte_at(body, 0) {
        0 => TermEntry::BoolLit(false),
        1 => TermEntry::BoolLit(true),
        _ => TermEntry::Unreadable,
    }
}

// A bit vector: its width and 16 bytes, low byte first.
pub fn bit_vec_lit(body: &[u8]) -> TermEntry<'_>
    ensures is { IsTerm (some (bytes "XN")) body.now result }
    ensures fits { TermFits result }
{
    let width = number_at(body, 0);
    let value = write_bitvec::reading::low_first(read_field::part_of(body, 4, 16));
    TermEntry::BitVecLit(width, value)
}

// A text.
pub fn string_lit(body: &[u8]) -> TermEntry<'_>
    ensures is { IsTerm (some (bytes "XS")) body.now result }
    ensures fits { TermFits result }
{
    TermEntry::StringLit(text_at(body, 0))
}

// An entity: its type and its id.
pub fn entity_lit(body: &[u8]) -> TermEntry<'_>
    ensures is { IsTerm (some (bytes "XE")) body.now result }
    ensures fits { TermFits result }
{
    let t = number_at(body, 0);
    let id = text_at(body, 4);
    TermEntry::Entity(t, id)
}

// The empty option: the type of what it could have.
pub fn none_of(body: &[u8]) -> TermEntry<'_>
    ensures is { IsTerm (some (bytes "X0")) body.now result }
    ensures fits { TermFits result }
{
    TermEntry::None(number_at(body, 0))
}
