// The declarations of entity types, enums and extension types.

ghost use Rattle.std.specs.Prelude.{[], ◌∷◌};
ghost use Rattle.script_spec.specs.Command.{line, spaced, constructor_list, declare_datatype};
ghost use Rattle.script_spec.specs.Spelling.{ext_name, ext_constructors};
ghost use Rattle.refusal.specs.Numbers.{option_of};
ghost use Rattle.write_bytes.specs.Writers.{Writes};
ghost use Rattle.index_entry.specs.Types.{ext_type_said};
ghost use Rattle.write_types.specs.Members.{entity_symbol, member_text, members_text, SpellsEntity, SpellsMembers, SpellsEnum};

use index_entry::types::ExtType;
use smtlib_script::line::Word;
use walk_names::naming;
use write_bytes::writer::{Line, Writer};

// The name and the constructors of an extension type.
fn put_ext_type(w: &mut Writer<'_>, x: ExtType)
    ensures { Writes w.old w.new (spaced (ext_name (ext_type_said x) ∷ constructor_list (ext_constructors (ext_type_said x)) ∷ [])) }
{
    match x {
        ExtType::IPAddr => w.put(
            b"IPAddr (\n  (V4 (addrV4 (_ BitVec 32)) (prefixV4 (Option (_ BitVec 5))))\n  (V6 (addrV6 (_ BitVec 128)) (prefixV6 (Option (_ BitVec 7)))))",
        ),
        ExtType::Decimal => w.put(b"Decimal (\n  (Decimal (decimalVal (_ BitVec 64))))"),
        ExtType::Datetime => w.put(b"Datetime (\n  (Datetime (datetimeVal (_ BitVec 64))))"),
        ExtType::Duration => w.put(b"Duration (\n  (Duration (durationVal (_ BitVec 64))))"),
    }
}

// Writes the declaration of an extension type as a line.
pub fn declare_ext_type(w: &mut Writer<'_>, x: ExtType)
    ensures { Writes w.old w.new (line (declare_datatype (ext_name (ext_type_said x)) [] (ext_constructors (ext_type_said x)))) }
{
    smtlib_script::line::put_word(w, Word::DeclareDatatype);
    put_ext_type(w, x);
    w.put(b")\n")
}

// The declaration of an entity type that is no enum, by its name.
#[derive(Clone, Copy)]
pub struct EntityDeclaration {
    pub name: Option<u32>,
}

impl Line for EntityDeclaration {
    ghost written = { λ type. SpellsEntity (option_of type.name) };

    fn write(self, w: &mut Writer<'_>) {
        smtlib_script::line::put_word(w, Word::DeclareDatatype);
        naming::put_name(w, b'E', self.name);
        w.put(b" (\n  (");
        naming::put_name(w, b'E', self.name);
        w.put(b" (");
        naming::put_name(w, b'E', self.name);
        w.put(b"_eid String))))\n")
    }
}

// Writes the constructor of the i-th member on a line of its own.
fn put_member(w: &mut Writer<'_>, name: Option<u32>, i: u32)
    ensures { Writes w.old w.new (member_text (entity_symbol (option_of name)) i) }
{
    w.put(b"\n  (");
    naming::put_name(w, b'E', name);
    w.put(b"_m");
    write_numeral::put_decimal(w, u64::from(i));
    w.put_byte(b')')
}

// Writes the constructors of n members, as far as the limit.
fn put_members(w: &mut Writer<'_>, name: Option<u32>, n: u32)
    ensures { Writes w.old w.new (members_text (entity_symbol (option_of name)) 0 n) }
{
    for i in 0..n {
        if w.is_past() {
            return;
        }
        put_member(w, name, i);
    }
}

// The constructors of n members; the start of a line where there are none.
fn put_lines(w: &mut Writer<'_>, name: Option<u32>, n: u32)
    ensures { SpellsMembers (option_of name) n w.old w.new }
{
    if n == 0 {
        return w.put(b"\n  ");
    }
    put_members(w, name, n)
}

// The declaration of an enum, by its name and how many members it has.
#[derive(Clone, Copy)]
pub struct EnumDeclaration {
    pub name: Option<u32>,
    pub members: u32,
}

impl Line for EnumDeclaration {
    ghost written = { λ type. SpellsEnum (option_of type.name) type.members };

    fn write(self, w: &mut Writer<'_>) {
        smtlib_script::line::put_word(w, Word::DeclareDatatype);
        naming::put_name(w, b'E', self.name);
        w.put(b" (");
        put_lines(w, self.name, self.members);
        w.put(b"))\n")
    }
}
