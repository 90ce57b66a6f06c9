// The fields that each mark's body has.
ghost use Rattle.std.specs.Prelude.{◌≡◌};
ghost use Rattle.read_record.specs.Fields.{fields_of, fields_if, final_field};

use crate::Earlier;
use crate::mark::Kind;
use read_field::list::Item;

// A field of a body.
#[derive(Clone, Copy)]
pub enum Field {
    Nothing,
    Text,
    Width,
    // A code below this bound.
    Code(u32),
    // The number of one of so many earlier records.
    Reference(u32),
    // The number of one of so many types, which is a `TE`.
    Entity(u32),
    // The width and the value of a bit vector.
    Number,
    // An extension value.
    Value,
    // An operator with its operand, after so many functions.
    Operator(u32),
    List(Item),
}

// The fields of a body in their order.
#[derive(Clone, Copy)]
pub struct Fields(pub Field, pub Field, pub Field);

// The fields of a kind's body, after what stands before it.
pub(crate) fn row_of(kind: Kind, earlier: Earlier<'_>) -> Fields
    ensures { result ≡ fields_of earlier.entry.types earlier.entry.funs earlier.entry.terms kind }
{
    let Earlier {
        types,
        funs,
        terms,
        ..
    } = earlier;
    match kind {
        Kind::TB => Fields(Field::Nothing, Field::Nothing, Field::Nothing),
        Kind::TS => Fields(Field::Nothing, Field::Nothing, Field::Nothing),
        Kind::TV => Fields(Field::Width, Field::Nothing, Field::Nothing),
        Kind::TO => Fields(Field::Reference(types), Field::Nothing, Field::Nothing),
        Kind::TC => Fields(Field::Reference(types), Field::Nothing, Field::Nothing),
        Kind::TE => Fields(Field::Text, Field::Nothing, Field::Nothing),
        Kind::TX => Fields(Field::Code(4), Field::Nothing, Field::Nothing),
        Kind::TR => Fields(
            Field::List(Item::Named(types)),
            Field::Nothing,
            Field::Nothing,
        ),
        Kind::EN => Fields(Field::Text, Field::List(Item::Text), Field::Nothing),
        Kind::UF => Fields(
            Field::Text,
            Field::Reference(types),
            Field::Reference(types),
        ),
        Kind::XV => Fields(Field::Text, Field::Reference(types), Field::Nothing),
        Kind::XB => Fields(Field::Code(2), Field::Nothing, Field::Nothing),
        Kind::XN => Fields(Field::Number, Field::Nothing, Field::Nothing),
        Kind::XS => Fields(Field::Text, Field::Nothing, Field::Nothing),
        Kind::XE => Fields(Field::Entity(types), Field::Text, Field::Nothing),
        Kind::XX => Fields(Field::Value, Field::Nothing, Field::Nothing),
        Kind::X0 => Fields(Field::Reference(types), Field::Nothing, Field::Nothing),
        Kind::X1 => Fields(Field::Reference(terms), Field::Nothing, Field::Nothing),
        Kind::XC => Fields(
            Field::Reference(types),
            Field::List(Item::Reference(terms)),
            Field::Nothing,
        ),
        Kind::XR => Fields(
            Field::List(Item::Named(terms)),
            Field::Nothing,
            Field::Nothing,
        ),
        Kind::XA => Fields(
            Field::Reference(types),
            Field::Operator(funs),
            Field::List(Item::Reference(terms)),
        ),
        Kind::IN => Fields(Field::Reference(terms), Field::Nothing, Field::Nothing),
    }
}

// The fields of a body by the kind of its mark; under two bytes that are no mark a body has none.
pub fn fields_of(kind: Option<Kind>, earlier: Earlier<'_>) -> Option<Fields>
    ensures { result ≡ fields_if earlier.entry.types earlier.entry.funs earlier.entry.terms kind }
{
    match kind {
        None => None,
        Some(kind) => Some(row_of(kind, earlier)),
    }
}

// The field of the type that is written behind them, after so many types; nothing where none is.
pub fn final_field(types: u32, typed: bool) -> Field
    ensures { result ≡ final_field types typed }
{
    if typed {
        return Field::Reference(types);
    }
    Field::Nothing
}
