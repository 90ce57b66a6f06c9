// The walk over the terms of a file: each term after its type and its children, and each once. Of equal terms the first that it comes to is
// encoded, with the children of its own record.
#![tactic(auto)]

ghost use Rattle.walk_names.specs.Progress.{Advances, Passes};
ghost use Rattle.index_entry.specs.Children.{ChildrenAt};
ghost use Rattle.walk_new.specs.Steps.{term_ready};
ghost use Rattle.walk_terms.specs.Terms.{term_walk, own_type_walk, children_walk, ToEncode, EncodesUnnamed};

use index::Column;
use index_entry::parents;
use index_entry::terms::Children;
use walk_names::naming::{self, Named};
use walk_names::walk::{Stopped, Walk};
use walk_queries::queries::Negated;

// The children of the term at an offset of the file.
fn children_at(file: &[u8], offset: u32) -> Children<'_>
    ensures { ChildrenAt file.now offset result }
{
    let body = index_entry::records::body_at(file, offset);
    match index_entry::records::letter_at(file, offset) {
        b'1' => Children::alone(body),
        b'A' => parents::arguments(body),
        b'C' => parents::set_children(body),
        b'R' => parents::record_children(body),
        _ => Children::none(body),
    }
}

// The children of the term with number n that are encoded before it: none under the `false` of a `Bvnego`. Out of line it takes no stack
// while they are encoded.
#[inline(never)]
fn to_encode<'a>(walk: &Walk<'_, 'a, '_, '_>, n: u32) -> Children<'a>
    ensures { ToEncode walk.now n result }
{
    match walk_queries::queries::negation_of(walk.records.view(), n) {
        Negated::Falsehood => Children::none(&[]),
        _ => children_at(walk.records.file, walk.records.get(Column::TermOffset, n)),
    }
}

// Encodes the type of the term with number n. The walk over types is called only where something may be left to declare. Out of line it
// takes no stack while the children are encoded.
#[inline(never)]
fn encode_own_type(walk: &mut Walk, n: u32)
    ensures { Passes (term_ready n) (own_type_walk n) walk.old walk.new }
{
    let t = walk.records.get(Column::TermType, n);
    if !walk_types::settled::is_settled(walk.records.view(), t) {
        walk_types::encode_type(walk, t)
    }
}

// Encodes the term with number n, where it has no name yet. That it has one is known before the call of what encodes it.
#[cycle(encode_term_encode_terms_encode_unnamed)]
pub fn encode_term(walk: &mut Walk, n: u32) -> Result<(), Stopped>
    ensures { Advances (term_ready n) (term_walk n) walk.old walk.new result }
{
    if naming::get(walk.records.view(), Named::Terms, n).is_some() {
        return Ok(());
    }
    encode_unnamed(walk, n)
}

// Encodes the term with number n, which has no name: its type, its children, and then the term itself.
#[cycle(encode_term_encode_terms_encode_unnamed)]
fn encode_unnamed(walk: &mut Walk, n: u32) -> Result<(), Stopped>
    ensures { EncodesUnnamed n walk.old walk.new result }
{
    encode_own_type(walk, n);
    encode_terms(walk, n)?;
    walk_new::terms::encode_new(walk, n)
}

// Encodes the children of the term with number n, one after the other. A child has a lower number.
#[cycle(encode_term_encode_terms_encode_unnamed)]
fn encode_terms(walk: &mut Walk, n: u32) -> Result<(), Stopped>
    ensures { Advances (term_ready n) (children_walk n) walk.old walk.new result }
{
    for child in to_encode(walk, n) {
        if n <= child {
            return Ok(());
        }
        encode_term(walk, child)?;
    }
    Ok(())
}
