// Options, sets and records.
ghost use Rattle.write_terms.specs.Values.{SpellsTermSort, SpellsConstant, SpellsSome, SpellsSet, SpellsRecord};

use crate::arguments::put_arguments;
use index::{Column, Records};
use index_entry::terms::Compound;
use write_bytes::writer::Writer;

// Writes the sort of the term with number n.
pub fn put_term_sort(records: Records<'_>, w: &mut Writer<'_>, n: u32)
    ensures { SpellsTermSort records.entry n w.old w.new }
{
    write_types::sorts::put_sort(records, w, records.get(Column::TermType, n))
}

// Writes a constant at the sort of the term with number n.
pub fn put_constant(records: Records<'_>, w: &mut Writer<'_>, n: u32, constant: &[u8])
    ensures { SpellsConstant records.entry n constant.now w.old w.new }
{
    w.put(b"(as ");
    w.put(constant);
    w.put_byte(b' ');
    put_term_sort(records, w, n);
    w.put_byte(b')')
}

// Writes the option of the term with number m.
pub fn put_some(records: Records<'_>, w: &mut Writer<'_>, m: u32)
    ensures { SpellsSome records.entry m w.old w.new }
{
    w.put(b"(some ");
    write_atoms::atoms::put_atom(records, w, m);
    w.put_byte(b')')
}

// Writes a set.
pub fn put_set(records: Records<'_>, w: &mut Writer<'_>, term: Compound<'_>)
    ensures { SpellsSet records.entry term.entry w.old w.new }
{
    if term.children.left == 0 {
        return put_constant(records, w, term.number, b"set.empty");
    }
    w.put(b"(set.insert");
    put_arguments(records, w, term.children);
    w.put_byte(b' ');
    put_constant(records, w, term.number, b"set.empty");
    w.put_byte(b')')
}

// Writes a record.
pub fn put_record(records: Records<'_>, w: &mut Writer<'_>, term: Compound<'_>)
    ensures { SpellsRecord records.entry term.entry w.old w.new }
{
    if term.children.left == 0 {
        return put_term_sort(records, w, term.number);
    }
    w.put_byte(b'(');
    put_term_sort(records, w, term.number);
    put_arguments(records, w, term.children);
    w.put_byte(b')')
}
