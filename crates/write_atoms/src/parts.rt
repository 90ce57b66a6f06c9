// Parts of the lines of terms: names, truth values, and the names of members and attributes.
ghost use Rattle.write_bytes.specs.Writers.{Writes};
ghost use Rattle.write_atoms.specs.Parts.{truth, term_name_of, SpellsNumbered};

use index::Records;
use walk_names::naming::Named;
use write_bytes::writer::Writer;

// The name of a member or of an attribute: the number of its type, and its place among the members or attributes.
#[derive(Clone, Copy)]
pub struct PartName {
    pub of: u32,
    pub place: u32,
}

// Writes the name of the term with number n.
pub fn put_term_name(records: Records<'_>, w: &mut Writer<'_>, n: u32)
    ensures { Writes w.old w.new (term_name_of records.entry n) }
{
    let name = walk_names::naming::get(records, Named::Terms, n);
    walk_names::naming::put_name(w, b't', name)
}

// Writes a truth value.
pub fn put_bool(w: &mut Writer<'_>, b: bool)
    ensures { Writes w.old w.new (truth b) }
{
    if b { w.put(b"true") } else { w.put(b"false") }
}

// Writes the name of a member or of an attribute: the sort of its type before a mark and its place.
pub fn put_numbered(records: Records<'_>, w: &mut Writer<'_>, mark: &[u8], part: PartName)
    ensures { SpellsNumbered records.entry part.of mark.now part.place w.old w.new }
{
    write_types::sorts::put_sort(records, w, part.of);
    w.put(mark);
    write_numeral::put_decimal(w, u64::from(part.place))
}
