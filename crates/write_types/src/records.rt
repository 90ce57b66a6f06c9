// Record types: their comments and declarations.
ghost use Rattle.std.specs.Prelude.{◌++◌};
ghost use Rattle.script_spec.specs.Base.{bytes, joined};
ghost use Rattle.script_spec.specs.Command.{◌⊹◌, line, comment};
ghost use Rattle.script_spec.specs.Spelling.{attribute_name};
ghost use Rattle.refusal.specs.Numbers.{option_of};
ghost use Rattle.write_bytes.specs.Writers.{Writes};
ghost use Rattle.index_entry.specs.Terms.{names_in};
ghost use Rattle.write_types.specs.Records.{record_name, SpellsPart, SpellsParts, SpellsSpaced, SpellsRecordType};

use crate::{comments, sorts};
use index::Records;
use index_entry::terms::Children;
use smtlib_script::line::Word;
use walk_names::naming;
use write_bytes::writer::{Line, Writer};
use write_text::comment::Comment;

// A record type as it is declared: its name, and its attributes with their types.
#[derive(Clone, Copy)]
pub struct RecordType<'a> {
    pub name: Option<u32>,
    pub attributes: Children<'a>,
}

// Writes the start of the i-th part of the record type with this name: its selector.
fn put_selector(w: &mut Writer<'_>, name: Option<u32>, i: usize)
    ensures { Writes w.old w.new (bytes " (" ++ attribute_name (record_name (option_of name)) i) }
{
    w.put(b" (");
    naming::put_name(w, b'R', name);
    w.put(b"_a");
    write_numeral::put_decimal(w, i as u64)
}

// Writes the i-th part of the record type with this name, which has the type with number p.
fn put_part(records: Records<'_>, w: &mut Writer<'_>, name: Option<u32>, i: usize, p: u32)
    ensures { SpellsPart records.entry (option_of name) i p w.old w.new }
{
    put_selector(w, name, i);
    w.put_byte(b' ');
    sorts::put_sort(records, w, p);
    w.put_byte(b')')
}

// Writes the parts of a record type by its name and its attributes, as far as the limit.
fn put_parts(records: Records<'_>, w: &mut Writer<'_>, name: Option<u32>, attributes: Children<'_>)
    ensures { SpellsParts records.entry (record { name = name; attributes = attributes.entry }) w.old w.new }
{
    for (i, part) in attributes.enumerate() {
        if w.is_past() {
            return;
        }
        put_part(records, w, name, i, part);
    }
}

// Writes the parts of a record type after spaces; a space alone where there are none.
fn put_spaced_parts(records: Records<'_>, w: &mut Writer<'_>, ty: RecordType<'_>)
    ensures { SpellsSpaced records.entry ty.entry w.old w.new }
{
    if ty.attributes.left == 0 {
        return w.put_byte(b' ');
    }
    put_parts(records, w, ty.name, ty.attributes)
}

// The declaration of a record type.
#[derive(Clone, Copy)]
pub struct RecordDeclaration<'a> {
    pub records: Records<'a>,
    pub ty: RecordType<'a>,
}

impl Line for RecordDeclaration<'_> {
    ghost written = { λ declared. SpellsRecordType declared.records declared.ty };

    fn write(self, w: &mut Writer<'_>) {
        smtlib_script::line::put_word(w, Word::DeclareDatatype);
        naming::put_name(w, b'R', self.ty.name);
        w.put(b" (\n  (");
        naming::put_name(w, b'R', self.ty.name);
        put_spaced_parts(self.records, w, self.ty);
        w.put(b")))\n")
    }
}

// Writes the comment of a record type with these attributes as a line.
pub fn put_record_comment(w: &mut Writer<'_>, attributes: Children<'_>)
    ensures { Writes w.old w.new (line (comment (bytes "{" ⊹ joined (bytes ", ") (names_in attributes.entry) ⊹ bytes "}"))) }
{
    smtlib_script::line::put_word(w, Word::Comment);
    let text = Comment { points: 0 }.put(w, b"{");
    comments::put_texts(w, text, attributes.names()).put(w, b"}");
    w.put_byte(b'\n')
}
