// Functions: their comments and their declarations.
ghost use Rattle.write_types.specs.Functions.{SpellsFunId, SpellsFun};

use crate::sorts;
use index::{Column, Records};
use smtlib_script::line::Word;
use walk_names::naming::{self, Named};
use write_bytes::writer::{Line, Writer};

// The comment of the function with this number, its id.
#[derive(Clone, Copy)]
pub struct FunComment<'a> {
    pub records: Records<'a>,
    pub number: u32,
}

impl Line for FunComment<'_> {
    ghost written = { λ fun. SpellsFunId fun.records fun.number };

    fn write(self, w: &mut Writer<'_>) {
        let offset = self.records.get(Column::FunOffset, self.number);
        let body = index_entry::records::body_at(self.records.file, offset);
        let id = index_entry::lists::text_at(body, 0);
        smtlib_script::line::comment(w, id)
    }
}

// The declaration of the function with this number.
#[derive(Clone, Copy)]
pub struct FunDeclaration<'a> {
    pub records: Records<'a>,
    pub number: u32,
}

impl Line for FunDeclaration<'_> {
    ghost written = { λ fun. SpellsFun fun.records fun.number };

    fn write(self, w: &mut Writer<'_>) {
        let fun = index_entry::numbered::fun_at(self.records, self.number);
        smtlib_script::line::put_word(w, Word::DeclareFun);
        naming::put_name(w, b'f', naming::get(self.records, Named::Funs, self.number));
        w.put(b" (");
        sorts::put_sort(self.records, w, fun.argument);
        w.put(b") ");
        sorts::put_sort(self.records, w, fun.result);
        w.put(b")\n")
    }
}
