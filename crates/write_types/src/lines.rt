// What declares a type: its comment and its declaration, each a line, the second in the rest after the first, by the number of its record.
ghost use Rattle.std.proofs.Math.Option.{none};
ghost use Rattle.write_bytes.specs.Writers.{Writes};
ghost use Rattle.write_types.specs.Lines.{entity_lines, SpellsRecordLines, SpellsEnumLines, SpellsEntityLines, SpellsType};
ghost use Rattle.refusal.specs.Numbers.{option_of};

use crate::datatypes::{EntityDeclaration, EnumDeclaration};
use crate::records::{self, RecordDeclaration, RecordType};
use index::{Column, Records};
use index_entry::types::TypeEntry;
use walk_names::naming::{self, Named};
use write_bytes::writer::{Line, Writer};

// Declares a record type.
fn declare_record_type(records: Records<'_>, w: &mut Writer<'_>, ty: RecordType<'_>)
    ensures { SpellsRecordLines records.entry ty.entry w.old w.new }
{
    records::put_record_comment(w, ty.attributes);
    w.lend(RecordDeclaration { records, ty })
}

// Declares the entity type `text`, whose members are those of the enum with number i.
fn declare_enum_type(
    records: Records<'_>,
    w: &mut Writer<'_>,
    text: &[u8],
    name: Option<u32>,
    i: u32,
)
    ensures { SpellsEnumLines records.entry text.now (option_of name) i w.old w.new }
{
    let members = index_entry::symbols::enum_at(records.file, records.get(Column::EnumOffset, i));
    crate::datatype_comments::put_enum_comment(w, text, members);
    w.lend(EnumDeclaration {
        name,
        members: members.left,
    })
}

// Declares the entity type `text`, which is no enum.
fn declare_plain_type(w: &mut Writer<'_>, text: &[u8], name: Option<u32>)
    ensures { Writes w.old w.new (entity_lines text.now (option_of name) none) }
{
    smtlib_script::line::comment(w, text);
    w.lend(EntityDeclaration { name })
}

// Declares the entity type `text`, whose enum has the number i; where there are no more than i enums it is none.
fn declare_entity_type(
    records: Records<'_>,
    w: &mut Writer<'_>,
    text: &[u8],
    name: Option<u32>,
    i: u32,
)
    ensures { SpellsEntityLines records.entry text.now (option_of name) i w.old w.new }
{
    if i < records.sizes.enums {
        declare_enum_type(records, w, text, name, i)
    } else {
        declare_plain_type(w, text, name)
    }
}

// The lines that declare the type with this number: none for one that is no datatype.
#[derive(Clone, Copy)]
pub struct TypeLines<'a> {
    pub records: Records<'a>,
    pub number: u32,
}

impl Line for TypeLines<'_> {
    ghost written = { λ type. SpellsType type.records type.number };

    fn write(self, w: &mut Writer<'_>) {
        let name = naming::get(self.records, Named::Types, self.number);
        match index_entry::numbered::type_at(self.records, self.number) {
            TypeEntry::Entity(text) => {
                let i = self.records.get(Column::TypeList, self.number);
                declare_entity_type(self.records, w, text, name, i)
            }
            TypeEntry::Ext(x) => crate::datatypes::declare_ext_type(w, x),
            TypeEntry::Record(attributes) => declare_record_type(
                self.records,
                w,
                RecordType { name, attributes },
            ),
            _ => {}
        }
    }
}
