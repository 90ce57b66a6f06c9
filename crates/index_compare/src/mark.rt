// The start of a walk, by the mark of the record.
ghost use Rattle.std.specs.Prelude.{◌≡◌};
ghost use Rattle.index_compare.specs.Machine.{fields, listing, start_type, start_list, start_term, walk_start};

use crate::segments::{Field, Item, Walk};

// A walk from the start of a body with these fields, and no list after them.
fn fields(f: Field, g: Field) -> Walk
    ensures { result ≡ fields f g }
{
    Walk {
        first: f,
        second: g,
        counts: false,
        item: Item::Term,
        left: 0,
    }
}

// With a list after them.
fn listing(f: Field, g: Field, item: Item) -> Walk
    ensures { result ≡ listing f g item }
{
    Walk {
        first: f,
        second: g,
        counts: true,
        item,
        left: 0,
    }
}

// The start in the body of a type, by the second byte of its mark.
#[tactic(auto, unfolding(crate::specs::Machine::start_type))]
fn start_type(b: u8) -> Walk
    ensures { result ≡ start_type b }
{
    match b {
        b'O' | b'C' => fields(Field::TypeRef, Field::Nothing),
        b'R' => listing(Field::Nothing, Field::Nothing, Item::NamedType),
        _ => fields(Field::Rest, Field::Nothing),
    }
}

// In the body of a term with a list.
#[tactic(auto, unfolding(crate::specs::Machine::start_list))]
fn start_list(b: u8) -> Walk
    ensures { result ≡ start_list b }
{
    match b {
        b'C' => listing(Field::TypeRef, Field::Nothing, Item::Term),
        b'R' => listing(Field::Nothing, Field::Nothing, Item::NamedTerm),
        b'A' => listing(Field::TypeRef, Field::Operator, Item::Term),
        _ => fields(Field::Rest, Field::Nothing),
    }
}

// In the body of a term.
#[tactic(auto, unfolding(crate::specs::Machine::start_term))]
fn start_term(b: u8) -> Walk
    ensures { result ≡ start_term b }
{
    match b {
        b'V' => fields(Field::NamedType, Field::Nothing),
        b'E' => fields(Field::TypeRef, Field::Rest),
        b'0' => fields(Field::TypeRef, Field::Nothing),
        b'1' => fields(Field::TermRef, Field::Nothing),
        _ => start_list(b),
    }
}

// In the body of a record, by the two bytes of its mark.
#[tactic(auto, unfolding(crate::specs::Machine::walk_start))]
pub fn start(a: u8, b: u8) -> Walk
    ensures { result ≡ walk_start a b }
{
    match a {
        b'T' => start_type(b),
        b'X' => start_term(b),
        b'U' => fields(Field::NamedType, Field::TypeRef),
        b'I' => fields(Field::TermRef, Field::Nothing),
        _ => fields(Field::Rest, Field::Nothing),
    }
}
