// The shapes of records: segments that are told with no walk.
ghost use Rattle.std.specs.Prelude.{◌≡◌};
ghost use Rattle.std.specs.Iterator.{YieldsFirstBy, item_count};
ghost use Rattle.index_compare.specs.Segment.{term_ref};
ghost use Rattle.index_compare.specs.Machine.{remaining, walk_start};
ghost use Rattle.index_compare.specs.View.{segments_at};
ghost use Rattle.index_compare.specs.Shape.{Shaped, IsBare, terms_ahead};

use crate::compare::byte_after;
use crate::record::{body_at, first_letter};
use crate::segments::{operand_of, read_word};

// References to terms: how many are left, and the bytes from the first on.
#[derive(Clone, Copy)]
pub struct Terms<'a> {
    pub rest: &'a [u8],
    pub left: u32,
}

impl Iterator for Terms<'_> {
    type Item = u32;

    ghost next_gives = { YieldsFirstBy term_ref terms_ahead };

    ghost remaining = { item_count terms_ahead };

    fn next(&mut self) -> Option<u32> {
        if self.left == 0 {
            return None;
        }
        let rest = self.rest;
        let n = read_word(rest, 0)?;
        self.rest = &rest[4..];
        self.left -= 1;
        Some(n)
    }
}

// The segments of a record, where they are told with no walk: a reference to a term; a reference to a type, the code of an operator
// that has no operand, a count, and so many references to terms; the same with no code; a text with its count, and a reference to a
// type; or bytes alone.
#[derive(Clone, Copy)]
pub enum Shape<'a> {
    Sole(u32),
    Applied(u32, &'a [u8], &'a [u8], Terms<'a>),
    Listing(u32, &'a [u8], Terms<'a>),
    Named(&'a [u8], u32),
    Bare(&'a [u8]),
}

// The shape of a body that is a reference to a term.
fn sole<'a>(body: &'a [u8]) -> Option<Shape<'a>>
    ensures { Shaped (remaining (walk_start 88 49) body.now) result }
{
    let n = read_word(body, 0)?;
    Some(Shape::Sole(n))
}

// Of that of an application.
fn applied<'a>(body: &'a [u8]) -> Option<Shape<'a>>
    ensures { Shaped (remaining (walk_start 88 65) body.now) result }
{
    let t = read_word(body, 0)?;
    let left = read_word(body, 5)?;
    if operand_of(body[4]).is_some() {
        return None;
    }
    let terms = Terms {
        rest: &body[9..],
        left,
    };
    Some(Shape::Applied(t, &body[4..5], &body[5..9], terms))
}

// Of that of a set.
fn listing<'a>(body: &'a [u8]) -> Option<Shape<'a>>
    ensures { Shaped (remaining (walk_start 88 67) body.now) result }
{
    let t = read_word(body, 0)?;
    let left = read_word(body, 4)?;
    let terms = Terms {
        rest: &body[8..],
        left,
    };
    Some(Shape::Listing(t, &body[4..8], terms))
}

// Of that of a variable.
fn named<'a>(body: &'a [u8]) -> Option<Shape<'a>>
    ensures { Shaped (remaining (walk_start 88 86) body.now) result }
{
    let n = read_word(body, 0)?;
    let size = 4 + n as usize;
    let t = read_word(body, size)?;
    Some(Shape::Named(&body[..size], t))
}

// The shape of the body of a type.
#[inline(always)]
fn type_shape<'a>(b: u8, body: &'a [u8]) -> Option<Shape<'a>>
    ensures { Shaped (remaining (walk_start 84 b) body.now) result }
{
    match b {
        b'B' | b'S' | b'V' | b'E' | b'X' => Some(Shape::Bare(body)),
        _ => None,
    }
}

// Of that of a term.
#[inline(always)]
fn term_shape<'a>(b: u8, body: &'a [u8]) -> Option<Shape<'a>>
    ensures { Shaped (remaining (walk_start 88 b) body.now) result }
{
    match b {
        b'1' => sole(body),
        b'A' => applied(body),
        b'V' => named(body),
        b'C' => listing(body),
        b'B' | b'N' | b'S' | b'X' => Some(Shape::Bare(body)),
        _ => None,
    }
}

// The shape of a body by the two bytes of its mark. As a part of its callers a shape is never stored.
#[inline(always)]
pub fn shape_by<'a>(a: u8, b: u8, body: &'a [u8]) -> Option<Shape<'a>>
    ensures { Shaped (remaining (walk_start a b) body.now) result }
{
    match a {
        b'T' => type_shape(b, body),
        b'X' => term_shape(b, body),
        _ => None,
    }
}

// The shape of the record at an offset.
#[inline(always)]
pub fn shape_at<'a>(file: &'a [u8], offset: usize) -> Option<Shape<'a>>
    ensures { Shaped (segments_at file.now offset) result }
{
    shape_by(
        first_letter(file, offset),
        byte_after(file, offset),
        body_at(file, offset),
    )
}

// The body of the record at an offset, where it is told to be bytes alone.
pub fn bare_at<'a>(file: &'a [u8], offset: usize) -> Option<&'a [u8]>
    ensures { IsBare (segments_at file.now offset) result }
{
    match shape_at(file, offset) {
        Some(Shape::Bare(body)) => Some(body),
        _ => None,
    }
}
