// The greatest depth of the records that a record refers to.
ghost use Rattle.std.specs.Prelude.{◌≡◌, ◌∷◌, map, max};
ghost use Rattle.index.specs.Rules.{greatest};
ghost use Rattle.index.specs.Cells.{cell, type_depth};
ghost use Rattle.index_compare.specs.Segment.{type_ref};
ghost use Rattle.index_compare.specs.Machine.{ahead};
ghost use Rattle.index_compare.specs.Step.{kind_number};
ghost use Rattle.index_compare.specs.Shape.{terms_ahead};
ghost use Rattle.index_compare.specs.View.{segments_at, reference_numbers, larger, viewed};

use crate::compare::{View, segments_at, viewed};
use crate::segments::{Referent, Segment, Segments};
use crate::shape::{Shape, Terms, shape_at};
use index::{Column, Records};

// The larger of a number and that of a segment, if this is of a kind.
#[tactic(auto, using(crate::proofs::Depths::larger_other, crate::proofs::Depths::larger_same))]
fn larger(found: Referent, number: u32, kind: Referent, most: u32) -> u32
    ensures { result ≡ larger (kind_number found) number (kind_number kind) most }
{
    if found == kind {
        return number.max(most);
    }
    most
}

// The greatest depth ahead that the index has for references of a kind, 0 where there are none. It is rare, and out of line it keeps `greatest` short.
#[inline(never)]
fn greatest_ahead(records: Records<'_>, rest: Segments<'_>, kind: Referent) -> u32
    ensures { result ≡ greatest (reference_numbers (kind_number kind) (map (viewed records.entry.work.now records.entry.sizes.rows View.Depth) (ahead rest.entry))) }
{
    let mut most = 0;
    for s in rest {
        if let Segment::Reference(found, number) = viewed(records, View::Depth, s) {
            most = larger(found, number, kind, most);
        }
    }
    most
}

// The larger of a number and the greatest depth of some references to terms, if terms are of the kind.
fn greatest_terms(records: Records<'_>, terms: Terms<'_>, kind: Referent, most: u32) -> u32
    ensures { result ≡ max most (greatest (reference_numbers (kind_number kind) (map (viewed records.entry.work.now records.entry.sizes.rows View.Depth) (terms_ahead terms.entry)))) }
{
    let mut found = most;
    for n in terms {
        let depth = records.get(Column::TermDepth, n);
        found = larger(Referent::Term, depth, kind, found);
    }
    found
}

// The depth of a type, if types are of the kind, else 0.
fn type_depth(records: Records<'_>, t: u32, kind: Referent) -> u32
    ensures { result ≡ larger 2 (cell records.entry.work.now records.entry.sizes.rows type_depth t) (kind_number kind) 0 }
{
    larger(Referent::Type, records.get(Column::TypeDepth, t), kind, 0)
}

// The greatest depth of a reference to a type and of some references to terms, of a kind.
fn greatest_listed(records: Records<'_>, t: u32, terms: Terms<'_>, kind: Referent) -> u32
    ensures { result ≡ greatest (reference_numbers (kind_number kind) (map (viewed records.entry.work.now records.entry.sizes.rows View.Depth) (type_ref t ∷ terms_ahead terms.entry))) }
{
    let most = type_depth(records, t, kind);
    greatest_terms(records, terms, kind, most)
}

// The greatest depth that the index has for the references of a record of a kind, which is that of types or of terms.
pub fn greatest(records: Records<'_>, offset: usize, kind: Referent) -> u32
    ensures { result ≡ greatest (reference_numbers (kind_number kind) (map (viewed records.entry.work.now records.entry.sizes.rows View.Depth) (segments_at records.entry.file.now offset))) }
{
    match shape_at(records.file, offset) {
        Some(Shape::Sole(n)) => larger(Referent::Term, records.get(Column::TermDepth, n), kind, 0),
        Some(Shape::Applied(t, _, _, terms)) => greatest_listed(records, t, terms, kind),
        Some(Shape::Listing(t, _, terms)) => greatest_listed(records, t, terms, kind),
        Some(Shape::Named(_, t)) => type_depth(records, t, kind),
        Some(Shape::Bare(_)) => 0,
        None => greatest_ahead(records, segments_at(records.file, offset), kind),
    }
}

// The same of a kind by its number, 0 where references have no such kind.
pub fn greatest_of(records: Records<'_>, offset: usize, kind: u32) -> u32
    ensures { result ≡ greatest (reference_numbers kind (map (viewed records.entry.work.now records.entry.sizes.rows View.Depth) (segments_at records.entry.file.now offset))) }
{
    match kind {
        2 => greatest(records, offset, Referent::Type),
        3 => greatest(records, offset, Referent::Fun),
        4 => greatest(records, offset, Referent::Term),
        _ => 0,
    }
}
