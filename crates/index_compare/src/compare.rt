// Records compared by their bodies: plain bytes as they stand, references by the numbers of first equal records.

ghost use Rattle.std.specs.Prelude.{◌≡◌, ◌+◌, map, get_or};
ghost use Rattle.std.specs.Iterator.{YieldsFirstBy, item_count};
ghost use Rattle.index_compare.specs.Machine.{ahead};
ghost use Rattle.index_compare.specs.Step.{told};
ghost use Rattle.index_compare.specs.View.{segments_at, viewed, viewed_ahead, Decides, SameSegments};

pub use crate::depth::{greatest, greatest_of};
pub use crate::opening::first_reference;
use crate::record::{body_at, first_letter};
use crate::segments::{Referent, Segment, Segments};
use crate::shape::bare_at;
use index::{Column, Records};

// What stands for a reference: the number of the first equal record; the same, and for a term that of its type, as a reference to a
// type; or the depth.
#[derive(Clone, Copy)]
pub enum View {
    First,
    Listed,
    Depth,
}

// The byte at a place, 0 past the end.
pub fn byte_at(s: &[u8], i: usize) -> u8
    ensures { result ≡ get_or s.now i 0 }
{
    s.get(i).copied().unwrap_or(0)
}

// The byte after a place, 0 past the end.
pub fn byte_after(s: &[u8], i: usize) -> u8
    ensures { result ≡ get_or s.now (i + 1) 0 }
{
    byte_at(s, i.saturating_add(1))
}

// The segments of the record at an offset.
#[tactic(auto, using(crate::proofs::Shapes::segments_by), unfolding(crate::specs::Machine::ahead))]
pub fn segments_at<'a>(file: &'a [u8], offset: usize) -> Segments<'a>
    ensures { ahead result ≡ segments_at file.now offset }
{
    Segments::of(
        first_letter(file, offset),
        byte_after(file, offset),
        body_at(file, offset),
    )
}

// A segment with what a view has for its reference.
#[tactic(auto, unfolding(crate::specs::View::viewed, crate::specs::View::term_as))]
pub fn viewed<'a>(records: Records<'_>, view: View, x: Segment<'a>) -> Segment<'a>
    ensures { told result ≡ viewed records.entry.work.now records.entry.sizes.rows view (told x.entry) }
{
    let Segment::Reference(to, n) = x else {
        return x;
    };
    match (to, view) {
        (Referent::Type, View::Depth) => Segment::Reference(to, records.get(Column::TypeDepth, n)),
        (Referent::Type, _) => Segment::Reference(to, records.get(Column::TypeFirst, n)),
        (Referent::Fun, _) => Segment::Reference(to, records.get(Column::FunFirst, n)),
        (Referent::Term, View::First) => Segment::Reference(to, records.get(Column::TermFirst, n)),
        (Referent::Term, View::Listed) => {
            Segment::Reference(Referent::Type, records.get(Column::TermType, n))
        }
        (Referent::Term, View::Depth) => Segment::Reference(to, records.get(Column::TermDepth, n)),
    }
}

// The segments that are still to come in a body, in a view.
#[derive(Clone, Copy)]
pub struct ViewedSegments<'a> {
    pub records: Records<'a>,
    pub view: View,
    pub rest: Segments<'a>,
}

impl<'a> Iterator for ViewedSegments<'a> {
    type Item = Segment<'a>;

    ghost next_gives = { YieldsFirstBy told viewed_ahead };

    ghost remaining = { item_count viewed_ahead };

    fn next(&mut self) -> Option<Segment<'a>> {
        let met = self.rest.next()?;
        Some(viewed(self.records, self.view, met))
    }
}

// The segments of the record at an offset, in a view.
pub fn viewed_segments<'a>(records: Records<'a>, view: View, offset: usize) -> ViewedSegments<'a>
    ensures { viewed_ahead result ≡ map (viewed records.entry.work.now records.entry.sizes.rows view) (segments_at records.entry.file.now offset) }
{
    ViewedSegments {
        records,
        view,
        rest: segments_at(records.file, offset),
    }
}

// Whether the segments of the records at two offsets are equal, each in a view.
fn same_segments(records: Records<'_>, offset: usize, s: View, other: usize, t: View) -> bool
    ensures { Decides result (SameSegments records.entry.file.now (viewed records.entry.work.now records.entry.sizes.rows s) offset (viewed records.entry.work.now records.entry.sizes.rows t) other) }
{
    viewed_segments(records, s, offset).eq(viewed_segments(records, t, other))
}

// Whether the records at two offsets, of one mark, agree, references by the numbers of first equal records: where they are no sets, whether they
// are equal.
pub fn same_record(records: Records<'_>, offset: usize, other: usize) -> bool
    ensures { Decides result (SameSegments records.entry.file.now (viewed records.entry.work.now records.entry.sizes.rows View.First) offset (viewed records.entry.work.now records.entry.sizes.rows View.First) other) }
{
    if let Some(a) = bare_at(records.file, offset)
        && let Some(b) = bare_at(records.file, other)
    {
        return a == b;
    }
    same_segments(records, offset, View::First, other, View::First)
}

// Whether the record type at an offset is the type of the record term at the offset `other`.
pub fn same_listed_type(records: Records<'_>, offset: usize, other: usize) -> bool
    ensures { Decides result (SameSegments records.entry.file.now (viewed records.entry.work.now records.entry.sizes.rows View.First) offset (viewed records.entry.work.now records.entry.sizes.rows View.Listed) other) }
{
    same_segments(records, offset, View::First, other, View::Listed)
}
