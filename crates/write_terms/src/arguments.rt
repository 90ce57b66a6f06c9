// The arguments of a term.
ghost use Rattle.write_terms.specs.Arguments.{SpellsArguments, SpellsClosed};

use index::Records;
use index_entry::terms::Children;
use write_bytes::writer::Writer;

// Writes the terms that a record refers to, each after a space, as far as the limit.
pub fn put_arguments(records: Records<'_>, w: &mut Writer<'_>, children: Children<'_>)
    ensures { SpellsArguments records.entry children.entry w.old w.new }
{
    for child in children {
        if w.is_past() {
            return;
        }
        w.put_byte(b' ');
        write_atoms::atoms::put_atom(records, w, child);
    }
}

// Writes them after a space, and the end of the term.
pub fn put_closed(records: Records<'_>, w: &mut Writer<'_>, children: Children<'_>)
    ensures { SpellsClosed records.entry children.entry w.old w.new }
{
    if children.left == 0 {
        return w.put(b" )");
    }
    put_arguments(records, w, children);
    w.put_byte(b')')
}
