// Lists of texts, written with separators.
ghost use Rattle.std.specs.Prelude.{◌≡◌};
ghost use mathlib.Core.List.{[], ◌∷◌, map, zip};
ghost use Rattle.script_spec.specs.Base.{all, collect, empty, joined};
ghost use Rattle.script_spec.specs.Utf8.{is_utf8};
ghost use Rattle.script_spec.specs.Command.{spaced, listed, constructor_list};
ghost use Rattle.write_bytes.specs.Writers.{Writes};
ghost use Rattle.smtlib_script.specs.Arguments.{argument, arguments};

use write_bytes::writer::Writer;

// Whether each text is UTF-8.
pub fn are_utf8(texts: &[&[u8]]) -> bool
    ensures { result ≡ all is_utf8 (map (λ x. x.now) texts.now) }
{
    texts.iter().all(|text| read_utf8::is_utf8(text))
}

// Whether each text of a pair is UTF-8; there are as many pairs as the shorter list has texts.
pub fn pairs_are_utf8(xs: &[&[u8]], ys: &[&[u8]]) -> bool
    ensures { result ≡ all is_utf8 (collect (λ p. p.0 ∷ p.1 ∷ []) (zip (map (λ x. x.now) xs.now) (map (λ x. x.now) ys.now))) }
{
    xs.iter()
        .zip(ys)
        .all(|(x, y)| read_utf8::is_utf8(x) && read_utf8::is_utf8(y))
}

// Whether the texts, with spaces between them, are nothing.
pub fn is_blank(texts: &[&[u8]]) -> bool
    ensures { result ≡ empty (spaced (map (λ x. x.now) texts.now)) }
{
    match texts {
        [] => true,
        [text] => text.is_empty(),
        _ => false,
    }
}

// Two texts with a space between them.
pub fn put_two(w: &mut Writer<'_>, x: &[u8], y: &[u8])
    ensures { Writes w.old w.new (spaced (x.now ∷ y.now ∷ [])) }
{
    w.put(x);
    w.put_byte(b' ');
    w.put(y)
}

// The texts with a separator between them. Past the limit none is looked at.
fn put_joined(w: &mut Writer<'_>, separator: &[u8], texts: &[&[u8]])
    ensures { Writes w.old w.new (joined separator.now (map (λ x. x.now) texts.now)) }
{
    let [first, rest @ ..] = texts else {
        return;
    };
    w.put(first);
    for text in rest {
        if w.is_past() {
            return;
        }
        w.put(separator);
        w.put(text);
    }
}

// `(TEXTS)`.
pub fn put_list(w: &mut Writer<'_>, texts: &[&[u8]])
    ensures { Writes w.old w.new (listed (map (λ x. x.now) texts.now)) }
{
    w.put_byte(b'(');
    put_joined(w, b" ", texts);
    w.put_byte(b')')
}

// Constructors in parentheses, each on a line of its own.
pub fn put_constructors(w: &mut Writer<'_>, constructors: &[&[u8]])
    ensures { Writes w.old w.new (constructor_list (map (λ x. x.now) constructors.now)) }
{
    w.put(b"(\n  ");
    put_joined(w, b"\n  ", constructors);
    w.put_byte(b')')
}

// `(NAME SORT)`.
fn put_argument(w: &mut Writer<'_>, name: &[u8], sort: &[u8])
    ensures { Writes w.old w.new (argument (name.now, sort.now)) }
{
    w.put_byte(b'(');
    put_two(w, name, sort);
    w.put_byte(b')')
}

// The arguments with a space between them, as many as the shorter list has. Past the limit none is looked at.
fn put_spaced_arguments(w: &mut Writer<'_>, names: &[&[u8]], sorts: &[&[u8]])
    ensures { Writes w.old w.new
        (spaced (arguments (zip (map (λ x. x.now) names.now) (map (λ x. x.now) sorts.now)))) }
{
    let mut pairs = names.iter().zip(sorts);
    let Some((name, sort)) = pairs.next() else {
        return;
    };
    put_argument(w, name, sort);
    for (name, sort) in pairs {
        if w.is_past() {
            return;
        }
        w.put_byte(b' ');
        put_argument(w, name, sort);
    }
}

// `((NAME SORT) .. (NAME SORT))`.
pub fn put_arguments(w: &mut Writer<'_>, names: &[&[u8]], sorts: &[&[u8]])
    ensures { Writes w.old w.new
        (listed (arguments (zip (map (λ x. x.now) names.now) (map (λ x. x.now) sorts.now)))) }
{
    w.put_byte(b'(');
    put_spaced_arguments(w, names, sorts);
    w.put_byte(b')')
}
