// Terms that refer to terms, by the fields of their bodies.
ghost use Rattle.std.specs.Prelude.{true, false};
ghost use Rattle.std.proofs.Math.Option.{some};
ghost use Rattle.script_spec.specs.Base.{bytes};
ghost use Rattle.index_entry.specs.Terms.{IsTerm, TermFits};
ghost use Rattle.index_entry.specs.Children.{ListedAt, IsChildren};

use crate::records::number_at;
use crate::terms::{Children, TermEntry};
use read_field::Cursor;

// An option that has a value.
pub fn some_of(body: &[u8]) -> TermEntry<'_>
    ensures is { IsTerm (some (bytes "X1")) body.now result }
    ensures fits { TermFits result }
{
    TermEntry::Some(number_at(body, 0))
}

// The items of a set: a list after their type.
pub fn set_children(body: &[u8]) -> Children<'_>
    ensures { ListedAt body.now 4 false result }
{
    Children::listed(body, 4, false)
}

// A set: the type of its items, and the items.
pub fn set_of(body: &[u8]) -> TermEntry<'_>
    ensures is { IsTerm (some (bytes "XC")) body.now result }
    ensures fits { TermFits result }
{
    TermEntry::Set(number_at(body, 0), set_children(body))
}

// The values of a record: a list with their attributes.
pub fn record_children(body: &[u8]) -> Children<'_>
    ensures { ListedAt body.now 0 true result }
{
    Children::listed(body, 0, true)
}

// A record: each attribute with its value.
pub fn record_of(body: &[u8]) -> TermEntry<'_>
    ensures is { IsTerm (some (bytes "XR")) body.now result }
    ensures fits { TermFits result }
{
    TermEntry::Record(record_children(body))
}

// An application: its type, the operator and the arguments.
pub fn app_of(body: &[u8]) -> TermEntry<'_>
    ensures is { IsTerm (some (bytes "XA")) body.now result }
    ensures fits { TermFits result }
{
    let t = number_at(body, 0);
    match read_operator::operator_again(Cursor { body, at: 4 }) {
        Err(_) => TermEntry::Unreadable,
        Ok((op, rest)) => TermEntry::App(t, op, Children::listed(body, rest.at, false)),
    }
}

// The arguments of an application: they begin after the operator's code where it has no operand.
pub fn arguments(body: &[u8]) -> Children<'_>
    ensures { IsChildren (some (bytes "XA")) body.now result }
{
    let code = index_compare::compare::byte_at(body, 4);
    if index_compare::segments::operand_of(code).is_none() {
        return Children::listed(body, 5, false);
    }
    match read_operator::operator_again(Cursor { body, at: 4 }) {
        Err(_) => Children::none(body),
        Ok((_, rest)) => Children::listed(body, rest.at, false),
    }
}
