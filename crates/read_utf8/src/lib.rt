// The code points of a text one by one, and tests of a whole text.
#![tactic(auto)]

ghost use Rattle.std.specs.Prelude.{◌≡◌, ◌<◌, ◌-◌, Some, drop, length};
ghost use Rattle.std.specs.Iterator.{at_most};
ghost use Rattle.script_spec.specs.Utf8.{is_utf8};
ghost use Rattle.script_spec.specs.Walk.{is_low, first_high};
ghost use Rattle.refusal.specs.Numbers.{option_of};
ghost use Rattle.read_utf8.specs.Decoding.{first_point, led, follow, points, Decodes, Small};

// The highest code point that SMT-LIB's strings have.
pub const HIGHEST: u32 = 196607;
// The wildcard among the elements of a pattern.
pub const WILDCARD: u32 = 4294967295;

// Bytes that are not UTF-8.
#[derive(Clone, Copy)]
pub struct Malformed;

// The code points of a text from a place on.
#[derive(Clone, Copy)]
pub struct CodePoints<'a> {
    pub text: &'a [u8],
    pub at: usize,
}

impl<'a> CodePoints<'a> {
    // The code points of a whole text.
    pub fn new(text: &'a [u8]) -> CodePoints<'a>
        ensures { (result.text ≡ text.entry) × (result.at ≡ 0) }
    {
        CodePoints { text, at: 0 }
    }

    // The rest of a code point, of which `more` bytes are to come, the next of them from `low` to `high`.
    fn continued(&mut self, more: u32, low: u32, high: u32, value: u32) -> Result<u32, Malformed>
        requires { Small more low high value }
        ensures { Decodes (follow more low high value (drop self.old.at self.old.text.now)) self.old self.new (Some result) }
    {
        if more == 0 {
            return Ok(value);
        }
        if self.text.len() <= self.at {
            return Err(Malformed);
        }
        let b = u32::from(self.text[self.at]);
        if b < low || high < b {
            return Err(Malformed);
        }
        self.at += 1;
        self.continued(more - 1, 128, 191, value * 64 + (b - 128))
    }

    // The bytes after a first byte of 128 or more.
    fn led_by(&mut self, a: u32) -> Result<u32, Malformed>
        ensures { Decodes (led a (drop self.old.at self.old.text.now)) self.old self.new (Some result) }
    {
        if a < 194 {
            return Err(Malformed);
        }
        if a < 224 {
            return self.continued(1, 128, 191, a - 192);
        }
        if a < 240 {
            let low = if a == 224 { 160 } else { 128 };
            let high = if a == 237 { 159 } else { 191 };
            return self.continued(2, low, high, a - 224);
        }
        if a < 245 {
            let low = if a == 240 { 144 } else { 128 };
            let high = if a == 244 { 143 } else { 191 };
            return self.continued(3, low, high, a - 240);
        }
        Err(Malformed)
    }
}

impl Iterator for CodePoints<'_> {
    type Item = Result<u32, Malformed>;

    ghost next_gives = { λ c r d. Decodes (first_point (drop c.at c.text.now)) c d r };

    ghost remaining = { λ c. at_most (length c.text.now - c.at) };

    // The next code point, bytes that are not UTF-8, or nothing at the end.
    #[inline(always)]
    fn next(&mut self) -> Option<Result<u32, Malformed>> {
        if self.text.len() <= self.at {
            return None;
        }
        let a = u32::from(self.text[self.at]);
        self.at += 1;
        if a < 128 {
            return Some(Ok(a));
        }
        Some(self.led_by(a))
    }
}

// Whether a text is UTF-8.
pub fn is_utf8(s: &[u8]) -> bool
    ensures { result ≡ is_utf8 s.now }
{
    CodePoints::new(s).all(|point| point.is_ok())
}

// A code point that SMT-LIB's strings have, or the wildcard.
pub fn is_low(c: u32) -> bool
    ensures { result ≡ is_low c }
{
    c <= HIGHEST || c == WILDCARD
}

// The position of the first code point of a text that SMT-LIB's strings do not have, before any bytes that are not UTF-8.
pub fn first_high(s: &[u8]) -> Option<usize>
    ensures { option_of result ≡ first_high (points s.now) }
{
    for (n, point) in CodePoints::new(s).enumerate() {
        let Ok(c) = point else {
            return None;
        };
        if !is_low(c) {
            return Some(n);
        }
    }
    None
}
