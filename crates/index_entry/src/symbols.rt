// Enums and functions, by the fields of their bodies.
ghost use Rattle.index_entry.specs.Symbols.{EnumAt, FunAt};

use crate::lists::{self, Texts};
use crate::records;

// A function: the numbers of its argument's and its result's types. Its id is the text that the body begins with.
#[derive(Clone, Copy)]
pub struct Fun {
    pub argument: u32,
    pub result: u32,
}

// The members of the enum at an offset of the file: a list after its name.
pub fn enum_at(file: &[u8], offset: u32) -> Texts<'_>
    ensures { EnumAt file.now offset result }
{
    let body = records::body_at(file, offset);
    let end = lists::past_text(body, 0);
    let left = records::number_at(body, end);
    let from = lists::past(body, end, 4);
    Texts {
        body,
        from,
        left,
        skip: 0,
    }
}

// The function at an offset of the file.
pub fn fun_at(file: &[u8], offset: u32) -> Fun
    ensures { FunAt file.now offset result }
{
    let body = records::body_at(file, offset);
    let end = lists::past_text(body, 0);
    let argument = records::number_at(body, end);
    let next = lists::past(body, end, 4);
    let result = records::number_at(body, next);
    Fun { argument, result }
}
