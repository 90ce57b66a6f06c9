// Patterns, each element a code point of four bytes, low byte first, or the wildcard 4294967295.
use crate::lines::line;
use std::io;

fn regex(rt: &impl Print, p: &[u8]) -> io::Result<()> {
    line(rt, |w| write_pattern::put_pattern(w, p))
}

// Document 01, encoder.rs: the empty pattern is `(str.to_re "")`, and one element has no `re.++`. SMT-LIB, theory of Unicode
// strings: `re.allchar` is any one character, `re.*` any number of them, and `str.to_re` the one word.
pub fn patterns(rt: &impl Print) -> io::Result<()> {
    regex(rt, b"")?;
    regex(rt, b"a\0\0\0")?;
    regex(rt, b"\xff\xff\xff\xff")?;
    regex(rt, b"a\0\0\0\xff\xff\xff\xff")?;
    regex(rt, b"\xff\xff\xff\xff\"\0\0\0\\\0\0\0")?;
    regex(rt, b"\xff\xff\x02\0")
}
