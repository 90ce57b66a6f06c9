// The terms of an accepted file, read again by their offsets.
ghost use Rattle.std.specs.Prelude.{◌≡◌, [], ◌∷◌, drop};
ghost use Rattle.std.specs.Iterator.{YieldsFirst, item_count};
ghost use Rattle.std.proofs.Math.Option.{some};
ghost use Rattle.index.specs.Lists.{number_at};
ghost use Rattle.index_entry.specs.Terms.{children_in, names_of, IsTerm, TermAt, TermFits};
ghost use Rattle.index_entry.specs.Children.{past_name, ListedAt};

use crate::lists::{self, Texts};
use crate::records;
use read_operator::Op;

// The terms that a record refers to, or the parts of a type: so many numbers from a place of the body on, each after a text where `named`.
#[derive(Clone, Copy)]
pub struct Children<'a> {
    pub body: &'a [u8],
    pub from: usize,
    pub left: u32,
    pub named: bool,
}

// An application: its operator, its arguments and its number.
#[derive(Clone, Copy)]
pub struct Application<'a> {
    pub op: Op<'a>,
    pub arguments: Children<'a>,
    pub number: u32,
}

// A set or a record: its number and what it is of.
#[derive(Clone, Copy)]
pub struct Compound<'a> {
    pub number: u32,
    pub children: Children<'a>,
}

// An extension value: an address and its prefix, or 64 bits.
#[derive(Clone, Copy)]
pub enum Value {
    V4(u64, Option<u32>),
    V6(u128, Option<u32>),
    Decimal(u64),
    Datetime(u64),
    Duration(u64),
}

// A term as its record has it: types and terms by their numbers, texts as parts of the body. `Unreadable` stands for what is no
// term.
#[derive(Clone, Copy)]
pub enum TermEntry<'a> {
    Var(&'a [u8], u32),
    BoolLit(bool),
    BitVecLit(u32, u128),
    StringLit(&'a [u8]),
    Entity(u32, &'a [u8]),
    ExtLit(Value),
    None(u32),
    Some(u32),
    Set(u32, Children<'a>),
    Record(Children<'a>),
    App(u32, Op<'a>, Children<'a>),
    Unreadable,
}

impl<'a> Children<'a> {
    // No children.
    pub fn none(body: &'a [u8]) -> Children<'a>
        ensures { children_in result ≡ [] }
    {
        Children {
            body,
            from: 0,
            left: 0,
            named: false,
        }
    }

    // The child alone that a body begins with.
    pub fn alone(body: &'a [u8]) -> Children<'a>
        ensures { children_in result ≡ number_at body.now 0 ∷ [] }
    {
        Children {
            body,
            from: 0,
            left: 1,
            named: false,
        }
    }

    // The children in a list at a place of the body: its count, and then so many, each after a text where `named`.
    pub fn listed(body: &'a [u8], at: usize, named: bool) -> Children<'a>
        ensures { ListedAt body.now at named result }
    {
        let left = records::number_at(body, at);
        let from = lists::past(body, at, 4);
        Children {
            body,
            from,
            left,
            named,
        }
    }

    // The texts before the numbers, where each has one.
    pub fn names(&self) -> Texts<'a>
        ensures { result ≡ names_of self.now }
    {
        Texts {
            body: self.body,
            from: self.from,
            left: self.left,
            skip: 4,
        }
    }

    // Where the number of the first child stands: after its name, where it has one.
    fn place(&self) -> usize
        ensures { drop result self.now.body.now ≡ past_name self.now.named (drop self.now.from self.now.body.now) }
    {
        if self.named {
            return lists::past_text(self.body, self.from);
        }
        self.from
    }
}

impl Iterator for Children<'_> {
    type Item = u32;

    ghost next_gives = { YieldsFirst children_in };

    ghost remaining = { item_count children_in };

    fn next(&mut self) -> Option<u32> {
        if self.left == 0 {
            return None;
        }
        let at = self.place();
        let number = records::number_at(self.body, at);
        self.from = lists::past(self.body, at, 4);
        self.left -= 1;
        Some(number)
    }
}

// The term of a body under a mark that begins with X, by its second byte.
fn term_of(letter: u8, body: &[u8]) -> TermEntry<'_>
    ensures is { IsTerm (some (88 ∷ letter ∷ [])) body.now result }
    ensures fits { TermFits result }
{
    match letter {
        b'V' => crate::leaves::variable(body),
        b'B' => crate::leaves::bool_lit(body),
        b'N' => crate::leaves::bit_vec_lit(body),
        b'S' => crate::leaves::string_lit(body),
        b'E' => crate::leaves::entity_lit(body),
        b'X' => crate::values::ext_lit(body),
        b'0' => crate::leaves::none_of(body),
        b'1' => crate::parents::some_of(body),
        b'C' => crate::parents::set_of(body),
        b'R' => crate::parents::record_of(body),
        b'A' => crate::parents::app_of(body),
        _ => TermEntry::Unreadable,
    }
}

// The term at an offset of the file.
pub fn term_at(file: &[u8], offset: u32) -> TermEntry<'_>
    ensures is { TermAt file.now offset result }
    ensures fits { TermFits result }
{
    let letter = records::letter_at(file, offset);
    term_of(letter, records::body_at(file, offset))
}
