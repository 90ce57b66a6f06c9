// A hash of a record under the file's key: its mark and its body, references by the numbers of first equal records; and of a type that is not at hand.
ghost use Rattle.std.specs.Prelude.{◌≡◌, ◌*◌, [], ◌∷◌, map};
ghost use Rattle.index_compare.specs.Step.{told, refer};
ghost use Rattle.index_compare.specs.Shape.{terms_ahead};
ghost use Rattle.index_compare.specs.View.{viewed, viewed_ahead, segments_at};
ghost use Rattle.index_compare.specs.declared.compare.View.TheVariants.{First, Listed};
ghost use Rattle.index.specs.Standing.{mark_at};
ghost use Rattle.index.specs.Names.{folded, mixed, mixed_bytes};
ghost use Rattle.index_search.specs.Hash.{mixed_segment, mixed_segments, record_hash, type_hash};

use index::Records;
use index_compare::compare::{View, ViewedSegments, byte_after};
use index_compare::record::first_letter;
use index_compare::segments::{Referent, Segment};
use index_compare::shape::{Shape, Terms};

// A product of 128 bits, with its high half folded onto its low one.
pub(crate) fn folded(a: u64, b: u64) -> u64
    ensures { result ≡ folded (a * b) }
{
    let (low, high) = a.carrying_mul(b, 0);
    low ^ high
}

// A hash with a number mixed in.
pub(crate) fn mix(key: u64, h: u64, n: u64) -> u64
    ensures { result ≡ mixed key h n }
{
    folded(h ^ n, key)
}

// A hash with some bytes mixed in, four at a time and the last ones one by one.
pub fn mix_bytes(key: u64, h: u64, s: &[u8]) -> u64
    ensures { result ≡ mixed_bytes key h s.now }
{
    let (words, last) = s.as_chunks::<4>();
    let mut x = h;
    for word in words {
        x = mix(key, x, u64::from(u32::from_le_bytes(*word)));
    }
    for byte in last {
        x = mix(key, x, u64::from(*byte));
    }
    x
}

// A hash with the kind and the number of a segment mixed in.
pub(crate) fn mix_reference(key: u64, h: u64, kind: u8, number: u32) -> u64
    ensures { result ≡ mixed_segment key h kind number }
{
    mix(key, h, 4294967296 * u64::from(kind) + u64::from(number))
}

// A hash with a segment mixed in.
fn mix_segment(key: u64, h: u64, x: Segment<'_>) -> u64
    ensures { result ≡ mixed_segments key h (told x.entry ∷ []) }
{
    match x {
        Segment::Plain(p) => mix_bytes(key, mix_reference(key, h, 1, 0), p),
        Segment::Reference(to, n) => mix_reference(key, h, to as u8, n),
    }
}

// A hash with a reference mixed in, by the number of the first equal record.
fn mix_first(key: u64, records: Records<'_>, h: u64, to: Referent, n: u32) -> u64
    ensures { result ≡ mixed_segments key h (viewed records.entry.work.now records.entry.sizes.rows First (refer to n) ∷ []) }
{
    let x = Segment::Reference(to, n);
    mix_segment(
        key,
        h,
        index_compare::compare::viewed(records, View::First, x),
    )
}

// A hash with the segments that are still to come in a body mixed in.
fn mix_ahead(key: u64, h: u64, segments: ViewedSegments<'_>) -> u64
    ensures { result ≡ mixed_segments key h (viewed_ahead segments.entry) }
{
    let mut x = h;
    for segment in segments {
        x = mix_segment(key, x, segment);
    }
    x
}

// A hash with references to terms mixed in, by the numbers of first equal terms.
fn mix_terms(key: u64, records: Records<'_>, h: u64, terms: Terms<'_>) -> u64
    ensures { result ≡ mixed_segments key h (map (viewed records.entry.work.now records.entry.sizes.rows First) (terms_ahead terms.entry)) }
{
    let mut x = h;
    for n in terms {
        x = mix_first(key, records, x, Referent::Term, n);
    }
    x
}

// The hash of a mark of two bytes.
pub(crate) fn mark_hash(key: u64, a: u8, b: u8) -> u64
    ensures { result ≡ mixed_bytes key key (a ∷ b ∷ []) }
{
    mix_bytes(key, key, &[a, b])
}

// The hash of the mark of the record at an offset.
#[tactic(auto, unfolding(index::specs::Standing::mark_at))]
fn mark_hash_at(key: u64, file: &[u8], offset: usize) -> u64
    ensures { result ≡ mixed_bytes key key (mark_at file.now offset) }
{
    let b = byte_after(file, offset);
    mark_hash(key, first_letter(file, offset), b)
}

// The hash of the record at an offset, which is no set.
pub fn record_hash(records: Records<'_>, offset: usize) -> u64
    ensures { result ≡ record_hash records.entry.file.now records.entry.work.now records.entry.sizes.rows offset }
{
    let key = records.key();
    let h = mark_hash_at(key, records.file, offset);
    match index_compare::shape::shape_at(records.file, offset) {
        Some(Shape::Sole(n)) => mix_first(key, records, h, Referent::Term, n),
        Some(Shape::Applied(t, code, count, terms)) => {
            let x = mix_first(key, records, h, Referent::Type, t);
            let y = mix_segment(key, x, Segment::Plain(code));
            let z = mix_segment(key, y, Segment::Plain(count));
            mix_terms(key, records, z, terms)
        }
        Some(Shape::Bare(body)) => mix_segment(key, h, Segment::Plain(body)),
        Some(Shape::Named(text, t)) => {
            let x = mix_segment(key, h, Segment::Plain(text));
            mix_first(key, records, x, Referent::Type, t)
        }
        Some(Shape::Listing(..)) | None => mix_ahead(
            key,
            h,
            index_compare::compare::viewed_segments(records, View::First, offset),
        ),
    }
}

// The hash of a type of this mark with one segment.
pub fn segment_hash(key: u64, letter: u8, x: Segment<'_>) -> u64
    ensures { result ≡ type_hash key letter (told x.entry ∷ []) }
{
    mix_segment(key, mark_hash(key, b'T', letter), x)
}

// The hash of the type of the record term at an offset.
pub fn listed_hash(key: u64, records: Records<'_>, offset: usize) -> u64
    ensures { result ≡ type_hash key 82 (map (viewed records.entry.work.now records.entry.sizes.rows Listed) (segments_at records.entry.file.now offset)) }
{
    mix_ahead(
        key,
        mark_hash(key, b'T', b'R'),
        index_compare::compare::viewed_segments(records, View::Listed, offset),
    )
}
