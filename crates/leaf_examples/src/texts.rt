// String literals, ids and texts in comments.
use crate::lines::line;
use std::io;
use write_text::comment::Comment;

fn literal(rt: &impl Print, s: &[u8]) -> io::Result<()> {
    line(rt, |w| write_text::put_literal(w, s))
}

// SMT-LIB 2.6, section 3.1: a quote inside a string literal is doubled. Document 01: the backslash is `\u{5c}`, also before what
// the theory of Unicode strings would read as an escape.
pub fn quotes(rt: &impl Print) -> io::Result<()> {
    literal(rt, b"")?;
    literal(rt, b"this is a string literal")?;
    literal(rt, b"She said: \"Bye bye.\"")?;
    literal(rt, b"\\")?;
    literal(rt, b"\\u{41}")
}

// SMT-LIB, theory of Unicode strings: `\u{d}` to `\u{ddddd}` stand for a code point. Document 01: those outside 32 to 126 are
// written so, in lower-case hexadecimal without leading zeros, up to 196607.
pub fn escapes(rt: &impl Print) -> io::Result<()> {
    literal(rt, b"\0")?;
    literal(rt, b"\n")?;
    literal(rt, b"\x1f ~\x7f")?;
    literal(rt, b"\xc3\xa9")?;
    literal(rt, b"\xf0\xaf\xbf\xbf")
}

// RFC 3629, section 7: its four examples are the code points 41 2262 391 2E, D55C AD6D C5B4, 65E5 672C 8A9E, and FEFF 233B4.
pub fn code_points(rt: &impl Print) -> io::Result<()> {
    literal(rt, b"\x41\xe2\x89\xa2\xce\x91\x2e")?;
    literal(rt, b"\xed\x95\x9c\xea\xb5\xad\xec\x96\xb4")?;
    literal(rt, b"\xe6\x97\xa5\xe6\x9c\xac\xe8\xaa\x9e")?;
    literal(rt, b"\xef\xbb\xbf\xf0\xa3\x8e\xb4")
}

fn id(rt: &impl Print, s: &[u8]) -> io::Result<()> {
    line(rt, |w| write_text::put_debug(w, s))
}

// Document 01, smtlib_script.rs: an id stands as Rust's `{:?}` prints it, other bytes below 32 and 127 as `\u{h}`; a code point
// above 126 is `\u{h}` too.
pub fn ids(rt: &impl Print) -> io::Result<()> {
    id(rt, b"a")?;
    id(rt, b"\"\\\t\r\n\0")?;
    id(rt, b"\x01\x1f\x7f")?;
    id(rt, b"\xc3\xa9'")
}

// A comment's text in two pieces.
fn comment(rt: &impl Print, s: &[u8], t: &[u8]) -> io::Result<()> {
    line(rt, |w| {
        Comment { points: 0 }.put(w, s).put(w, t);
    })
}

// Document 02, W10: a byte below 32 and byte 127 become spaces, and after 200 code points the rest is dropped.
pub fn comments(rt: &impl Print) -> io::Result<()> {
    let letters = [120u8; 199];
    comment(rt, b"one\ntwo\r\nthree\\\"", b"")?;
    comment(rt, b"\0\x1f ~\x7f", b"\xc2\x80")?;
    comment(rt, &letters, b"ab")?;
    comment(rt, &letters, b"\xf0\xaf\xbf\xbfb")?;
    comment(rt, &letters, b"\x7f\xc3\xa9")
}
