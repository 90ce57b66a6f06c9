// A record's body as plain bytes and references, in order: a walk that meets one segment after the other.

ghost use Rattle.std.specs.Prelude.{◌≡◌, drop, [], ◌∷◌, IfNone};
ghost use Rattle.std.specs.Iterator.{YieldsFirstBy, item_count};
ghost use Rattle.index_compare.specs.Segment.{plain};
ghost use Rattle.index_compare.specs.Machine.{cut, reference, text_then, operand_of, operator_then, operand_then, count_then, remaining, walk_start, ahead};
ghost use Rattle.index_compare.specs.Step.{refer, told, led_by, WordRead, walk_ending, after_field, popped, put, items_from};

use read_operator::{EXT, RECORD_GET, STRING_LIKE, UUF, ZERO_EXTEND};

// What a reference is to. The number is its kind's among the kinds of segments, of which plain bytes are 1.
#[derive(Clone, Copy, PartialEq, Eq)]
pub enum Referent {
    Type = 2,
    Fun = 3,
    Term = 4,
}

// Plain bytes, or a reference by its number.
#[derive(Clone, Copy, PartialEq, Eq)]
pub enum Segment<'a> {
    Plain(&'a [u8]),
    Reference(Referent, u32),
}

// What an operator has after its code.
#[derive(Clone, Copy)]
pub enum Operand {
    Byte,
    Word,
    Text,
    Elements,
    Function,
}

// A field of a body. `Nothing` ends the fields; the named one is a text and then a reference.
#[derive(Clone, Copy)]
pub enum Field {
    Nothing,
    Rest,
    TypeRef,
    TermRef,
    NamedType,
    Operator,
    Operand(Operand),
}

// What a list has as its items.
#[derive(Clone, Copy)]
pub enum Item {
    Term,
    NamedType,
    NamedTerm,
}

// What is still to come in a body: the fields that come next, whether a count follows them, and the items and how many are left.
#[derive(Clone, Copy)]
pub struct Walk {
    pub first: Field,
    pub second: Field,
    pub counts: bool,
    pub item: Item,
    pub left: u32,
}

// The segments that are still to come in the bytes that are left of a body.
#[derive(Clone, Copy)]
pub struct Segments<'a> {
    pub rest: &'a [u8],
    pub walk: Walk,
}

// The four bytes at a place as a number, low byte first, if they are there.
pub fn read_word(body: &[u8], at: usize) -> Option<u32>
    ensures { WordRead (drop at body.now) result }
{
    let [a, b, c, d, ..] = body.get(at..)? else {
        return None;
    };
    Some(read_field::word(*a, *b, *c, *d))
}

impl Walk {
    // The walk after the first field.
    fn popped(self) -> Walk
        ensures { result ≡ popped self }
    {
        Walk {
            first: self.second,
            second: Field::Nothing,
            ..self
        }
    }

    // The walk with another first field.
    fn put(self, f: Field) -> Walk
        ensures { result ≡ put self f }
    {
        Walk { first: f, ..self }
    }

    // The walk at n items, of which the first has the field f left.
    fn items_from(self, f: Field, n: u32) -> Walk
        ensures { result ≡ items_from self f n }
    {
        Walk {
            first: f,
            second: Field::Nothing,
            counts: false,
            left: n,
            ..self
        }
    }
}

impl<'a> Segments<'a> {
    // The segments of a body, by the two bytes of its mark.
    #[tactic(auto, unfolding(crate::specs::Machine::ahead))]
    pub(crate) fn of(a: u8, b: u8, body: &'a [u8]) -> Segments<'a>
        ensures { ahead result ≡ remaining (walk_start a b) body.now }
    {
        Segments {
            rest: body,
            walk: crate::mark::start(a, b),
        }
    }

    // n bytes, after which another walk goes on.
    #[tactic(auto, using(crate::proofs::Steps::cut_short, crate::proofs::Steps::cut_at, crate::proofs::Steps::part_after), unfolding(crate::specs::Machine::ahead))]
    fn plain(&mut self, n: usize, then: Walk) -> Option<Segment<'a>>
        ensures gives { cut n plain (remaining then) self.old.rest.now ≡ led_by result (ahead self.new) }
        ensures rests { IfNone result (self.new ≡ self.old) }
    {
        let (bytes, rest) = self.rest.split_at_checked(n)?;
        self.rest = rest;
        self.walk = then;
        Some(Segment::Plain(bytes))
    }

    // A reference, after which another walk goes on.
    #[tactic(auto, using(crate::proofs::Steps::reference_short))]
    fn reference(&mut self, referent: Referent, then: Walk) -> Option<Segment<'a>>
        ensures gives { reference (refer referent) (remaining then) self.old.rest.now ≡ led_by result (ahead self.new) }
        ensures rests { IfNone result (self.new ≡ self.old) }
    {
        let rest = self.rest;
        let n = read_word(rest, 0)?;
        self.rest = &rest[4..];
        self.walk = then;
        Some(Segment::Reference(referent, n))
    }

    // A text with its count.
    #[tactic(auto, using(crate::proofs::Steps::cut_uncounted), unfolding(crate::specs::Machine::text_then, crate::specs::Machine::counted_size))]
    fn text(&mut self, then: Walk) -> Option<Segment<'a>>
        ensures gives { text_then (remaining then) self.old.rest.now ≡ led_by result (ahead self.new) }
        ensures rests { IfNone result (self.new ≡ self.old) }
    {
        let n = read_word(self.rest, 0)?;
        self.plain(4 + n as usize, then)
    }

    // The elements of a pattern with their count.
    #[tactic(auto, using(crate::proofs::Steps::cut_uncounted), unfolding(crate::specs::Machine::operand_then))]
    fn elements(&mut self, then: Walk) -> Option<Segment<'a>>
        ensures gives { operand_then Operand.Elements (remaining then) self.old.rest.now ≡ led_by result (ahead self.new) }
        ensures rests { IfNone result (self.new ≡ self.old) }
    {
        let n = read_word(self.rest, 0)?;
        self.plain(4 + 4 * n as usize, then)
    }

    // All bytes that are left.
    fn all(&mut self, then: Walk) -> Option<Segment<'a>>
        ensures gives { plain self.old.rest.now ∷ remaining then [] ≡ led_by result (ahead self.new) }
        ensures rests { IfNone result (self.new ≡ self.old) }
    {
        self.plain(self.rest.len(), then)
    }

    // An operand, after which another walk goes on.
    #[tactic(auto, unfolding(crate::specs::Machine::operand_then))]
    fn operand(&mut self, operand: Operand, then: Walk) -> Option<Segment<'a>>
        ensures gives { operand_then operand (remaining then) self.old.rest.now ≡ led_by result (ahead self.new) }
        ensures rests { IfNone result (self.new ≡ self.old) }
    {
        match operand {
            Operand::Byte => self.plain(1, then),
            Operand::Word => self.plain(4, then),
            Operand::Text => self.text(then),
            Operand::Elements => self.elements(then),
            Operand::Function => self.reference(Referent::Fun, then),
        }
    }

    // The code of an operator.
    fn operator(&mut self) -> Option<Segment<'a>>
        ensures gives { operator_then (after_field self.old.walk) self.old.rest.now ≡ led_by result (ahead self.new) }
        ensures rests { IfNone result (self.new ≡ self.old) }
    {
        let walk = self.walk;
        match operand_of(crate::compare::byte_at(self.rest, 0)) {
            Some(o) => self.plain(1, walk.put(Field::Operand(o))),
            None => self.plain(1, walk.popped()),
        }
    }

    // The count of a list.
    #[tactic(auto, unfolding(crate::specs::Machine::count_then, crate::specs::Machine::remaining, crate::specs::Machine::field_then, crate::specs::Machine::last))]
    fn count(&mut self) -> Option<Segment<'a>>
        ensures gives { count_then self.old.walk.item self.old.rest.now ≡ led_by result (ahead self.new) }
        ensures rests { IfNone result (self.new ≡ self.old) }
    {
        let n = read_word(self.rest, 0)?;
        let walk = self.walk;
        self.plain(4, walk.items_from(Field::Nothing, n))
    }

    // Where no fields are left: a count, or the next item.
    #[tactic(auto, using(crate::proofs::Steps::ending_none, crate::proofs::Steps::ending_item), unfolding(crate::specs::Step::walk_ending, crate::specs::Machine::last, crate::specs::Machine::items, crate::specs::Machine::item_then, crate::specs::Machine::remaining, crate::specs::Machine::field_then))]
    fn ending(&mut self) -> Option<Segment<'a>>
        ensures gives { walk_ending self.old.walk self.old.rest.now ≡ led_by result (ahead self.new) }
        ensures rests { IfNone result (self.new ≡ self.old) }
    {
        let walk = self.walk;
        if walk.counts {
            return self.count();
        }
        if walk.left == 0 {
            return None;
        }
        let left = walk.left - 1;
        match walk.item {
            Item::Term => self.reference(Referent::Term, walk.items_from(Field::Nothing, left)),
            Item::NamedType => self.text(walk.items_from(Field::TypeRef, left)),
            Item::NamedTerm => self.text(walk.items_from(Field::TermRef, left)),
        }
    }

    // One step of the walk: the next segment.
    #[tactic(auto, unfolding(crate::specs::Machine::ahead, crate::specs::Machine::remaining, crate::specs::Machine::field_then, crate::specs::Step::after_field, crate::specs::Step::walk_ending))]
    fn step(&mut self) -> Option<Segment<'a>>
        ensures gives { ahead self.old ≡ led_by result (ahead self.new) }
        ensures rests { IfNone result (self.new ≡ self.old) }
    {
        let walk = self.walk;
        match walk.first {
            Field::Nothing => self.ending(),
            Field::Rest => self.all(walk.popped()),
            Field::TypeRef => self.reference(Referent::Type, walk.popped()),
            Field::TermRef => self.reference(Referent::Term, walk.popped()),
            Field::NamedType => self.text(walk.put(Field::TypeRef)),
            Field::Operator => self.operator(),
            Field::Operand(o) => self.operand(o, walk.popped()),
        }
    }
}

impl<'a> Iterator for Segments<'a> {
    type Item = Segment<'a>;

    ghost next_gives = { YieldsFirstBy told ahead };

    ghost remaining = { item_count ahead };

    fn next(&mut self) -> Option<Segment<'a>> {
        self.step()
    }
}

// The operand of the operator with a code, if it has one.
#[tactic(auto, unfolding(crate::specs::Machine::operand_of))]
pub fn operand_of(code: u8) -> Option<Operand>
    ensures { result ≡ operand_of code }
{
    match code {
        EXT => Some(Operand::Byte),
        RECORD_GET => Some(Operand::Text),
        STRING_LIKE => Some(Operand::Elements),
        UUF => Some(Operand::Function),
        ZERO_EXTEND => Some(Operand::Word),
        _ => None,
    }
}
