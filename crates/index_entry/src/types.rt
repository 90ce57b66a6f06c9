// Types, by their marks and the fields of their bodies.
ghost use Rattle.std.specs.Prelude.{[], ◌∷◌};
ghost use Rattle.std.proofs.Math.Option.{some};
ghost use Rattle.script_spec.specs.Base.{bytes};
ghost use Rattle.index_entry.specs.Types.{IsType, TypeAt, PartAt};

use crate::terms::Children;
use crate::{lists, records};

// The extension types, in the order of `ExtType`.
#[derive(Clone, Copy)]
pub enum ExtType {
    IPAddr,
    Decimal,
    Datetime,
    Duration,
}

// A type as its record has it: parts by their numbers, and a name as a part of the body. `Unreadable` stands for what is no type.
#[derive(Clone, Copy)]
pub enum TypeEntry<'a> {
    Bool,
    String,
    BitVec(u32),
    Option(u32),
    Set(u32),
    Entity(&'a [u8]),
    Ext(ExtType),
    Record(Children<'a>),
    Unreadable,
}

// An extension type by its code.
fn ext_type(body: &[u8]) -> TypeEntry<'_>
    ensures { IsType (some (bytes "TX")) body.now result }
{
    match index_compare::compare::byte_at(body, 0) {
        0 => TypeEntry::Ext(ExtType::IPAddr),
        1 => TypeEntry::Ext(ExtType::Decimal),
        2 => TypeEntry::Ext(ExtType::Datetime),
        3 => TypeEntry::Ext(ExtType::Duration),
        _ => TypeEntry::Unreadable,
    }
}

// The type of a body under a mark that begins with T, by its second byte.
fn type_of(letter: u8, body: &[u8]) -> TypeEntry<'_>
    ensures { IsType (some (84 ∷ letter ∷ [])) body.now result }
{
    match letter {
        b'B' => TypeEntry::Bool,
        b'S' => TypeEntry::String,
        b'V' => TypeEntry::BitVec(records::number_at(body, 0)),
        b'O' => TypeEntry::Option(records::number_at(body, 0)),
        b'C' => TypeEntry::Set(records::number_at(body, 0)),
        b'E' => TypeEntry::Entity(lists::text_at(body, 0)),
        b'X' => ext_type(body),
        b'R' => TypeEntry::Record(Children::listed(body, 0, true)),
        _ => TypeEntry::Unreadable,
    }
}

// The type at an offset of the file.
pub fn type_at(file: &[u8], offset: u32) -> TypeEntry<'_>
    ensures { TypeAt file.now offset result }
{
    let letter = records::letter_at(file, offset);
    type_of(letter, records::body_at(file, offset))
}

// The part of the option or the set at an offset of the file: the number that its body begins with.
pub fn part_at(file: &[u8], offset: u32) -> u32
    ensures { PartAt file.now offset result }
{
    records::number_at(records::body_at(file, offset), 0)
}
