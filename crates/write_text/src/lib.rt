// Texts written as string literals, as ids in comments, and as comments.
#![tactic(auto)]

pub mod comment;

ghost use Rattle.std.specs.Prelude.{◌≡◌, take};
ghost use Rattle.script_spec.specs.Base.{between, collect};
ghost use Rattle.script_spec.specs.Text.{brace, escape, debug_char, literal};
ghost use Rattle.script_spec.specs.Text as text;
ghost use Rattle.write_bytes.specs.Writers.{Writes};
ghost use Rattle.read_utf8.specs.Decoding.{points};
ghost use Rattle.write_text.specs.declared.Quotes.TheVariants.{Debug};
ghost use Rattle.write_text.specs.Written.{shown, spelling, quoted, stops, Passed};

use read_utf8::CodePoints;
use write_bytes::writer::Writer;
use write_numeral::hex_digit;

// What a text in double quotes is: a string literal, or an id as `{:?}` prints it.
#[derive(Clone, Copy)]
enum Quotes {
    Literal,
    Debug,
}

// Where a text is written.
#[derive(Clone, Copy)]
enum Place {
    Quotes,
    Comment,
}

// A printable ASCII character.
#[tactic(auto, unfolding(script_spec::specs::Base::between))]
fn is_printable(c: u32) -> bool
    ensures { result ≡ between 32 126 c }
{
    32 <= c && c <= 126
}

// Writes a number as `\u{h}`, piece by piece.
fn put_braced(w: &mut Writer<'_>, c: u32)
    ensures { Writes w.old w.new (brace c) }
{
    w.put(b"\\u{");
    write_numeral::put_hex(w, u64::from(c));
    w.put_byte(b'}')
}

// Writes a code point as `\u{h}`. One of two to five digits, as most are, is stored at once.
fn put_brace(w: &mut Writer<'_>, c: u32)
    ensures { Writes w.old w.new (brace c) }
{
    if c < 0x10 || 0x100000 <= c {
        return put_braced(w, c);
    }
    let tens = c / 16;
    if tens < 16 {
        return w.put(&[b'\\', b'u', b'{', hex_digit(tens), hex_digit(c), b'}']);
    }
    let hundreds = tens / 16;
    if hundreds < 16 {
        return w.put(&[
            b'\\',
            b'u',
            b'{',
            hex_digit(hundreds),
            hex_digit(tens),
            hex_digit(c),
            b'}',
        ]);
    }
    let thousands = hundreds / 16;
    if thousands < 16 {
        return w.put(&[
            b'\\',
            b'u',
            b'{',
            hex_digit(thousands),
            hex_digit(hundreds),
            hex_digit(tens),
            hex_digit(c),
            b'}',
        ]);
    }
    w.put(&[
        b'\\',
        b'u',
        b'{',
        hex_digit(thousands / 16),
        hex_digit(thousands),
        hex_digit(hundreds),
        hex_digit(tens),
        hex_digit(c),
        b'}',
    ])
}

// Writes a code point as it is where it is printable, and else as `\u{h}`.
fn put_shown(w: &mut Writer<'_>, c: u32)
    ensures { Writes w.old w.new (shown c) }
{
    if is_printable(c) {
        return w.put_byte(c as u8);
    }
    put_brace(w, c)
}

// Writes a code point inside a string literal.
pub fn put_escape(w: &mut Writer<'_>, c: u32)
    ensures { Writes w.old w.new (escape c) }
{
    match c {
        34 => w.put(b"\"\""),
        92 => put_brace(w, c),
        _ => put_shown(w, c),
    }
}

// Writes a code point of an id as `{:?}` prints it.
fn put_debug_char(w: &mut Writer<'_>, c: u32)
    ensures { Writes w.old w.new (debug_char c) }
{
    match c {
        34 => w.put(b"\\\""),
        92 => w.put(b"\\\\"),
        9 => w.put(b"\\t"),
        13 => w.put(b"\\r"),
        10 => w.put(b"\\n"),
        0 => w.put(b"\\0"),
        _ => put_shown(w, c),
    }
}

// Writes a code point of a quoted text, as `{:?}` prints it or as a string literal has it.
#[tactic(auto, unfolding(crate::specs::Written::spelling))]
fn put_point(w: &mut Writer<'_>, quotes: Quotes, c: u32)
    ensures { Writes w.old w.new (spelling quotes c) }
{
    match quotes {
        Quotes::Literal => put_escape(w, c),
        Quotes::Debug => put_debug_char(w, c),
    }
}

// A control character of ASCII.
#[tactic(auto, unfolding(script_spec::specs::Text::is_control))]
fn is_control(b: u8) -> bool
    ensures { result ≡ text.is_control b }
{
    b < 32 || b == 127
}

// A byte at which a run of bytes that are written as they are ends.
#[tactic(auto, unfolding(crate::specs::Written::stops))]
fn is_stop(place: Place, b: u8) -> bool
    ensures { result ≡ stops place b }
{
    match place {
        Place::Quotes => b == 34 || b == 92 || !is_printable(u32::from(b)),
        Place::Comment => is_control(b),
    }
}

// How many bytes at the start of a text are written as they are.
fn run(place: Place, s: &[u8]) -> usize
    ensures { Passed (stops place) s.now result }
{
    s.iter().position(|b| is_stop(place, *b)).unwrap_or(s.len())
}

// Writes the bytes at the start of a text that are written as they are, as far as there is room, and tells how many they are.
fn put_run(w: &mut Writer<'_>, place: Place, s: &[u8]) -> usize
    ensures run { Passed (stops place) s.now result }
    ensures written { Writes w.old w.new (take result s.now) }
{
    let n = run(place, &s[..s.len().min(w.room())]);
    if 0 < n {
        w.put(&s[..n]);
    }
    n
}

// Writes the code points of a text, up to bytes that are not UTF-8: runs of plain bytes at once, others one by one. Past the
// limit the text is not looked at.
fn put_points(w: &mut Writer<'_>, quotes: Quotes, s: &[u8])
    ensures { Writes w.old w.new (collect (spelling quotes) (points s.now)) }
{
    let mut rest = CodePoints::new(s);
    while !w.is_past() {
        rest.at += put_run(w, Place::Quotes, &rest.text[rest.at..]);
        match rest.next() {
            Some(Ok(c)) => put_point(w, quotes, c),
            Some(Err(_)) => return,
            None => return,
        }
    }
}

// Writes the code points of a text in double quotes.
fn put_quoted(w: &mut Writer<'_>, quotes: Quotes, s: &[u8])
    ensures { Writes w.old w.new (quoted quotes (points s.now)) }
{
    w.put_byte(b'"');
    put_points(w, quotes, s);
    w.put_byte(b'"')
}

// Writes a text as a string literal.
pub fn put_literal(w: &mut Writer<'_>, s: &[u8])
    ensures { Writes w.old w.new (literal (points s.now)) }
{
    put_quoted(w, Quotes::Literal, s)
}

// The most code points of a comment's text.
const MOST: usize = 200;

// Writes a variable's id in its comment: as many bytes of it as a comment has code points, since each of them is a code point. Past them
// the id is not looked at.
pub fn put_debug(w: &mut Writer<'_>, id: &[u8])
    ensures { Writes w.old w.new (take 200 (quoted Debug (points id.now))) }
{
    if w.room() < MOST {
        return put_quoted(w, Quotes::Debug, id);
    }
    let limit = w.limit;
    let end = w.at + MOST;
    w.limit = end;
    put_quoted(w, Quotes::Debug, id);
    w.limit = limit;
    w.at = w.at.min(end);
}
