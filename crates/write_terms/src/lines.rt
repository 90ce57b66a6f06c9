// The lines of terms: declarations of variables, and assertions; and what definitions are made of.

ghost use Rattle.write_bytes.specs.Writers.{Writes};
ghost use Rattle.write_terms.specs.Lines.{id_line, SpellsConstructed, SpellsEntityBody, SpellsBody, SpellsHead, SpellsConst, SpellsVariable, SpellsAssertion};

use crate::values;
use index::Records;
use index_entry::terms::TermEntry;
use smtlib_script::line::{self, Word};
use walk_queries::queries::Member;
use write_bytes::writer::{Line, Writer};

// Writes an entity of the type with number t, which is no enum, by its id.
fn put_constructed(records: Records<'_>, w: &mut Writer<'_>, t: u32, id: &[u8])
    ensures { SpellsConstructed records.entry t id.now w.old w.new }
{
    w.put_byte(b'(');
    write_types::sorts::put_sort(records, w, t);
    w.put_byte(b' ');
    write_text::put_literal(w, id);
    w.put_byte(b')')
}

// Writes the entity with number n of the type with number t in full. Past the limit it is looked up in no enum.
fn put_entity(records: Records<'_>, w: &mut Writer<'_>, n: u32, t: u32, id: &[u8])
    ensures { SpellsEntityBody records.entry n t id.now w.old w.new }
{
    if w.is_past() {
        return;
    }
    match walk_queries::queries::find_member(records, t, id) {
        Member::NoEnum => put_constructed(records, w, t, id),
        _ => write_atoms::atoms::put_atom(records, w, n),
    }
}

// Writes the term with number n in full, if that is not compound.
pub fn put_body(records: Records<'_>, w: &mut Writer<'_>, n: u32)
    ensures { SpellsBody records.entry n w.old w.new }
{
    match index_entry::numbered_terms::term_at(records, n) {
        TermEntry::Entity(t, id) => put_entity(records, w, n, t, id),
        TermEntry::ExtLit(value) => write_atoms::values::put_ext_value(w, value),
        TermEntry::None(_) => values::put_constant(records, w, n, b"none"),
        _ => write_atoms::atoms::put_atom(records, w, n),
    }
}

// Writes the definition of the term with number n as far as its body.
pub fn put_head(records: Records<'_>, w: &mut Writer<'_>, n: u32)
    ensures { SpellsHead records.entry n w.old w.new }
{
    line::put_define_fun(w);
    write_atoms::parts::put_term_name(records, w, n);
    w.put(b" () ");
    values::put_term_sort(records, w, n);
    w.put_byte(b' ')
}

// Writes the comment of a variable, its id, as a line.
fn put_id(w: &mut Writer<'_>, id: &[u8])
    ensures { Writes w.old w.new (id_line id.now) }
{
    line::put_word(w, Word::Comment);
    write_text::put_debug(w, id);
    w.put_byte(b'\n')
}

// The declaration of the term with this number by its name and its sort.
#[derive(Clone, Copy)]
struct ConstDeclaration<'a> {
    records: Records<'a>,
    number: u32,
}

impl Line for ConstDeclaration<'_> {
    ghost written = { λ term. SpellsConst term.records term.number };

    fn write(self, w: &mut Writer<'_>) {
        line::put_word(w, Word::DeclareConst);
        write_atoms::parts::put_term_name(self.records, w, self.number);
        w.put_byte(b' ');
        values::put_term_sort(self.records, w, self.number);
        w.put(b")\n")
    }
}

// The lines that declare the term with this number, if that is a variable: its id in a comment, and its declaration in the rest.
#[derive(Clone, Copy)]
pub struct VariableLines<'a> {
    pub records: Records<'a>,
    pub number: u32,
}

impl Line for VariableLines<'_> {
    ghost written = { λ term. SpellsVariable term.records term.number };

    fn write(self, w: &mut Writer<'_>) {
        let term = index_entry::numbered_terms::term_at(self.records, self.number);
        if let TermEntry::Var(id, _) = term {
            put_id(w, id);
            w.lend(ConstDeclaration {
                records: self.records,
                number: self.number,
            })
        }
    }
}

// The assertion of the term with this number.
#[derive(Clone, Copy)]
pub struct Assertion<'a> {
    pub records: Records<'a>,
    pub number: u32,
}

impl Line for Assertion<'_> {
    ghost written = { λ term. SpellsAssertion term.records term.number };

    fn write(self, w: &mut Writer<'_>) {
        line::put_word(w, Word::Assert);
        write_atoms::atoms::put_atom(self.records, w, self.number);
        w.put(b")\n")
    }
}
