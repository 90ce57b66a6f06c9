// The patterns of `StringLike`, read from their bytes in the file: elements of four bytes, low byte first.
#![tactic(auto)]

ghost use Rattle.std.specs.Prelude.{◌≡◌, ◌∷◌, length};
ghost use Rattle.std.specs.Iterator.{YieldsFirst, at_most};
ghost use Rattle.script_spec.specs.Base.{collect};
ghost use Rattle.script_spec.specs.Spelling.{pattern_element, pattern};
ghost use Rattle.script_spec.specs.Walk.{first_high};
ghost use Rattle.refusal.specs.Numbers.{option_of};
ghost use Rattle.write_bytes.specs.Writers.{Writes};
ghost use Rattle.read_field.specs.Words.{elements};
ghost use Rattle.write_pattern.specs.Elements.{elements_in, spaced_element, several};

use write_bytes::writer::Writer;

// The elements of a pattern that are left, by their bytes.
#[derive(Clone, Copy)]
struct Elements<'a> {
    bytes: &'a [u8],
}

impl Iterator for Elements<'_> {
    type Item = u32;

    ghost next_gives = { YieldsFirst elements_in };

    ghost remaining = { λ e. at_most (length e.bytes.now) };

    fn next(&mut self) -> Option<u32> {
        let (first, rest) = self.bytes.split_first_chunk::<4>()?;
        self.bytes = rest;
        Some(u32::from_le_bytes(*first))
    }
}

// The position of the first element of a pattern that SMT-LIB's strings do not have; a wildcard is no such element.
pub fn first_high(p: &[u8]) -> Option<usize>
    ensures { option_of result ≡ first_high (elements p.now) }
{
    Elements { bytes: p }.position(|c| !read_utf8::is_low(c))
}

// Writes an element: the wildcard, or a code point.
fn put_element(w: &mut Writer<'_>, c: u32)
    ensures { Writes w.old w.new (pattern_element c) }
{
    if c == read_utf8::WILDCARD {
        return w.put(b"(re.* re.allchar)");
    }
    w.put(b"(str.to_re \"");
    write_text::put_escape(w, c);
    w.put(b"\")")
}

// Writes elements, each with a space before it, as far as the limit.
fn put_elements(w: &mut Writer<'_>, elements: Elements<'_>)
    ensures { Writes w.old w.new (collect spaced_element (elements_in elements.entry)) }
{
    for c in elements {
        if w.is_past() {
            return;
        }
        w.put_byte(b' ');
        put_element(w, c);
    }
}

// Writes two elements and those that are left, after one another.
fn put_several(w: &mut Writer<'_>, first: u32, second: u32, rest: Elements<'_>)
    ensures { Writes w.old w.new (several first (second ∷ elements_in rest.entry)) }
{
    w.put(b"(re.++ ");
    put_element(w, first);
    w.put_byte(b' ');
    put_element(w, second);
    put_elements(w, rest);
    w.put_byte(b')')
}

// Writes a pattern.
pub fn put_pattern(w: &mut Writer<'_>, p: &[u8])
    ensures { Writes w.old w.new (pattern (elements p.now)) }
{
    let mut elements = Elements { bytes: p };
    let Some(first) = elements.next() else {
        return w.put(b"(str.to_re \"\")");
    };
    let Some(second) = elements.next() else {
        return put_element(w, first);
    };
    put_several(w, first, second, elements)
}
