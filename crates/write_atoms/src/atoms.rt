// Terms as they are spelled where they are used: literals, members of enums and the `false` of a `Bvnego` in full, others by name.
ghost use Rattle.write_atoms.specs.Atoms.{SpellsEntity, SpellsCall, SpellsLeaf, SpellsAtom};

use crate::parts::{PartName, put_bool, put_numbered, put_term_name};
use index::{Column, Records};
use index_entry::terms::TermEntry;
use walk_queries::queries::{Member, Negated};
use write_bytes::writer::Writer;

// Writes the entity with number n of the type with number t: a member of an enum by its place, or else by its name. It is looked up in its enum
// where no place is noted of the first equal term, and not past the limit.
fn put_entity(records: Records<'_>, w: &mut Writer<'_>, n: u32, t: u32, id: &[u8])
    ensures { SpellsEntity records.entry n t id.now w.old w.new }
{
    if w.is_past() {
        return;
    }
    let first = records.get(Column::TermFirst, n);
    let noted = records.get(Column::Note, first).checked_sub(1);
    if let Some(place) = noted {
        return put_numbered(records, w, b"_m", PartName { of: t, place });
    }
    match walk_queries::queries::find_member(records, t, id) {
        Member::NoEnum => put_term_name(records, w, n),
        Member::NotMember => {}
        Member::At(i) => put_numbered(records, w, b"_m", PartName { of: t, place: i }),
    }
}

// Writes the term with number n, an application: the `false` of a `Bvnego`, or else its name.
fn put_call(records: Records<'_>, w: &mut Writer<'_>, n: u32)
    ensures { SpellsCall records.entry n w.old w.new }
{
    match walk_queries::queries::negation_of(records, n) {
        Negated::Falsehood => w.put(b"false"),
        _ => put_term_name(records, w, n),
    }
}

// Writes the term with number n, which is no application, as it is spelled where it is used, by all that its record has.
fn put_read(records: Records<'_>, w: &mut Writer<'_>, n: u32)
    ensures { SpellsLeaf records.entry n w.old w.new }
{
    match index_entry::numbered_terms::term_at(records, n) {
        TermEntry::BoolLit(b) => put_bool(w, b),
        TermEntry::BitVecLit(width, value) => {
            write_bitvec::spelling::put_bitvec(w, width, value)
        }
        TermEntry::StringLit(s) => write_text::put_literal(w, s),
        TermEntry::Entity(t, id) => put_entity(records, w, n, t, id),
        _ => put_term_name(records, w, n),
    }
}

// Writes the term with number n as it is spelled where it is used. The record of a term that has a name is not read in full.
pub fn put_atom(records: Records<'_>, w: &mut Writer<'_>, n: u32)
    ensures { SpellsAtom records.entry n w.old w.new }
{
    let offset = records.get(Column::TermOffset, n);
    match index_entry::records::letter_at(records.file, offset) {
        b'A' => {
            let body = index_entry::records::body_at(records.file, offset);
            if walk_queries::queries::is_other_code(body) {
                put_term_name(records, w, n)
            } else {
                put_call(records, w, n)
            }
        }
        b'B' | b'N' | b'S' | b'E' => put_read(records, w, n),
        _ => put_term_name(records, w, n),
    }
}
