// Texts that are UTF-8 or not, and the first code point that SMT-LIB's strings do not have.
use std::io;

fn answer(rt: &impl Print, yes: bool) -> io::Result<()> {
    println!(rt; "{yes}")
}

// RFC 3629, section 7: its four examples of UTF-8.
pub fn texts(rt: &impl Print) -> io::Result<()> {
    answer(rt, read_utf8::is_utf8(b"\x41\xe2\x89\xa2\xce\x91\x2e"))?;
    answer(
        rt,
        read_utf8::is_utf8(b"\xed\x95\x9c\xea\xb5\xad\xec\x96\xb4"),
    )?;
    answer(
        rt,
        read_utf8::is_utf8(b"\xe6\x97\xa5\xe6\x9c\xac\xe8\xaa\x9e"),
    )?;
    answer(rt, read_utf8::is_utf8(b"\xef\xbb\xbf\xf0\xa3\x8e\xb4"))
}

// RFC 3629, sections 3 and 10: a null character of two bytes, the slash and dots of `2F C0 AE 2E 2F`, a surrogate, a code point
// above 10FFFF, and a text that breaks off.
pub fn other_bytes(rt: &impl Print) -> io::Result<()> {
    answer(rt, read_utf8::is_utf8(b"\xc0\x80"))?;
    answer(rt, read_utf8::is_utf8(b"\x2f\xc0\xae\x2e\x2f"))?;
    answer(rt, read_utf8::is_utf8(b"\xed\xa0\x80"))?;
    answer(rt, read_utf8::is_utf8(b"\xf4\x90\x80\x80"))?;
    answer(rt, read_utf8::is_utf8(b"\xe2\x89"))
}

// Where the first high code point stands, if there is one.
fn position(rt: &impl Print, found: Option<usize>) -> io::Result<()> {
    match found {
        Some(n) => println!(rt; "{n}"),
        None => println!(rt; "none"),
    }
}

// Document 01, encode's refusal 15: 196607 is the last code point that a string literal can have.
pub fn last_code_point(rt: &impl Print) -> io::Result<()> {
    position(rt, read_utf8::first_high(b"\xf0\xaf\xbf\xbf"))?;
    position(rt, read_utf8::first_high(b"\xf0\xb0\x80\x80"))
}

// Document 02, W6: the position of the first higher one is counted from 0, in code points: 2 behind a euro sign and a quote, and 1 in a
// regional flag, behind the black flag 1F3F4. In a pattern a wildcard counts as one.
pub fn first_high(rt: &impl Print) -> io::Result<()> {
    position(
        rt,
        read_utf8::first_high(b"\xe2\x82\xac\"\xf0\xb0\x80\x80\xf0\xb0\x80\x80"),
    )?;
    position(
        rt,
        read_utf8::first_high(b"\xf0\x9f\x8f\xb4\xf3\xa0\x81\xa7\xf3\xa0\x81\xbf"),
    )?;
    position(
        rt,
        write_pattern::first_high(b"\xff\xff\xff\xffa\0\0\0\0\0\x03\0"),
    )?;
    position(
        rt,
        write_pattern::first_high(b"\xff\xff\xff\xff\xff\xff\x02\0"),
    )
}
