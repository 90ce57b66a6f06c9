// Reading the fields of a record's body: a cursor by value, whose methods hand it back moved past the field that they read.
#![tactic(auto)]

pub mod list;

ghost use Rattle.std.specs.Prelude.{◌≡◌, ◌+◌, ◌-◌, ◌≤◌, ◌||◌, [], ◌∷◌, eqb, ltb, length, take, drop};
ghost use Rattle.script_spec.specs.Base.{between};
ghost use Rattle.script_spec.specs.Fields.{low, byte, part, u32, text, ref, width, element, prefix, ensure};
ghost use Rattle.refusal.specs.Numbers.{number};
ghost use Rattle.read_field.specs.Reads.{code, is_element};
ghost use Rattle.read_field.specs.Takes.{Takes, bytes_of, prefix_of, PrefixOnOk};

use refusal::Refusal;

// The byte that stands for a prefix that is absent.
const NO_PREFIX: u32 = 255;

// A place in a body.
#[derive(Clone, Copy)]
pub struct Cursor<'a> {
    pub body: &'a [u8],
    pub at: usize,
}

// Four bytes as a number, low byte first.
pub fn word(b0: u8, b1: u8, b2: u8, b3: u8) -> u32
    ensures { result ≡ low (b0 ∷ b1 ∷ b2 ∷ b3 ∷ []) }
{
    u32::from_le_bytes([b0, b1, b2, b3])
}

impl<'a> Cursor<'a> {
    // The start of a body.
    pub fn new(body: &'a [u8]) -> Cursor<'a>
        ensures { (result.body ≡ body.entry) × (result.at ≡ 0) }
    {
        Cursor { body, at: 0 }
    }

    // How many bytes of the body are left.
    pub fn left(self) -> usize
        ensures { result ≡ length self.entry.body.now - self.entry.at }
    {
        self.body.len().saturating_sub(self.at)
    }

    // The cursor n bytes on.
    fn moved(self, n: usize) -> Cursor<'a>
        requires { n ≤ length self.body.now - self.at }
        ensures { (result.body ≡ self.entry.body) × (result.at ≡ self.entry.at + n) }
    {
        Cursor {
            at: self.at + n,
            ..self
        }
    }

    // A byte.
    pub fn byte(self) -> Result<(u32, Cursor<'a>), Refusal>
        ensures { Takes byte self.entry result }
    {
        if self.left() < 1 {
            return Err(Refusal::Misfit);
        }
        Ok((u32::from(self.body[self.at]), self.moved(1)))
    }

    // A number of four bytes, low byte first.
    pub fn u32_le(self) -> Result<(u32, Cursor<'a>), Refusal>
        ensures { Takes u32 self.entry result }
    {
        if self.left() < 4 {
            return Err(Refusal::Misfit);
        }
        let body = self.body;
        let at = self.at;
        let n = word(body[at], body[at + 1], body[at + 2], body[at + 3]);
        Ok((n, self.moved(4)))
    }

    // The next n bytes.
    pub fn part(self, n: usize) -> Result<(&'a [u8], Cursor<'a>), Refusal>
        ensures { Takes (part n) self.entry (bytes_of result) }
    {
        if self.left() < n {
            return Err(Refusal::Misfit);
        }
        Ok((part_of(self.body, self.at, n), self.moved(n)))
    }

    // A byte count and UTF-8.
    pub fn text(self) -> Result<(&'a [u8], Cursor<'a>), Refusal>
        ensures { Takes text self.entry (bytes_of result) }
    {
        let (n, c) = self.u32_le()?;
        let (s, d) = c.part(n as usize)?;
        if !read_utf8::is_utf8(s) {
            return Err(Refusal::NotUtf8);
        }
        Ok((s, d))
    }

    // The number of one of `count` earlier records.
    pub fn reference(self, count: u32) -> Result<(u32, Cursor<'a>), Refusal>
        ensures { Takes (ref count) self.entry result }
    {
        let (n, c) = self.u32_le()?;
        c.ensured(n, n < count, Refusal::NoSuchRecord)
    }

    // The width of a bit vector.
    pub fn width(self) -> Result<(u32, Cursor<'a>), Refusal>
        ensures { Takes width self.entry result }
    {
        let (n, c) = self.u32_le()?;
        c.ensured(n, is_width(n), Refusal::OutOfRange)
    }

    // A pattern's element: the wildcard or a code point.
    pub fn element(self) -> Result<(u32, Cursor<'a>), Refusal>
        ensures { Takes element self.entry result }
    {
        let (n, c) = self.u32_le()?;
        c.ensured(n, is_element(n), Refusal::OutOfRange)
    }

    // A prefix below `bound`, or none.
    pub fn prefix(self, bound: u32) -> Result<(Option<u32>, Cursor<'a>), Refusal>
        ensures takes { Takes (prefix bound) self.entry (prefix_of result) }
        ensures given { PrefixOnOk result }
    {
        let (n, c) = self.byte()?;
        if n == NO_PREFIX {
            return Ok((None, c));
        }
        if n < bound {
            Ok((Some(n), c))
        } else {
            Err(Refusal::OutOfRange)
        }
    }

    // A code below `bound`.
    pub fn code(self, bound: u32) -> Result<(u32, Cursor<'a>), Refusal>
        ensures { Takes (code bound) self.entry result }
    {
        let (n, c) = self.byte()?;
        c.ensured(n, n < bound, Refusal::OutOfRange)
    }

    // The number n, if the test is passed.
    fn ensured(self, n: u32, passed: bool, refusal: Refusal) -> Result<(u32, Cursor<'a>), Refusal>
        ensures { Takes (ensure (number refusal) passed n) self.entry result }
    {
        if passed { Ok((n, self)) } else { Err(refusal) }
    }
}

// Whether a bit vector can have n bits.
pub fn is_width(n: u32) -> bool
    ensures { result ≡ between 1 128 n }
{
    1 <= n && n <= 128
}

// Whether a number is that of a surrogate.
fn is_surrogate(n: u32) -> bool
    ensures { result ≡ between 55296 57343 n }
{
    55296 <= n && n <= 57343
}

// Whether a number is an element of a pattern: the wildcard, or a code point.
fn is_element(n: u32) -> bool
    ensures { result ≡ is_element n }
{
    if n == read_utf8::WILDCARD {
        return true;
    }
    n <= 1114111 && !is_surrogate(n)
}

// The bytes of the file from `start` on, `len` of them or as many as there are.
pub fn part_of<'a>(file: &'a [u8], start: usize, len: usize) -> &'a [u8]
    ensures { result.now ≡ take len (drop start file.now) }
{
    if file.len() < start {
        return &file[..0];
    }
    if file.len() - start < len {
        return &file[start..];
    }
    &file[start..start + len]
}
