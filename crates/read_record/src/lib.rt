// The records of a term file: marks, the fields that each mark's body has, and reading a record.
#![tactic(auto)]

pub mod body;
pub mod fields;
pub mod mark;

ghost use Rattle.std.specs.Prelude.{◌≡◌};
ghost use Rattle.read_record.specs.Bodies.{is_entity_at, earlier_with};
ghost use Rattle.read_record.specs.Records.{NextRecord};

use mark::Kind;
use read_field::Cursor;
use refusal::Refusal;

// A record: its kind, which is that of the mark that its own repeats, and where its body starts and ends in the file.
#[derive(Clone, Copy)]
pub struct Record {
    pub kind: Kind,
    pub start: usize,
    pub end: usize,
}

// What stands before a record: the file, the places of the types in it, and how many types, functions and terms there are.
#[derive(Clone, Copy)]
pub struct Earlier<'a> {
    pub file: &'a [u8],
    pub offsets: &'a [u32],
    pub types: u32,
    pub funs: u32,
    pub terms: u32,
}

impl Earlier<'_> {
    // Whether the record of type n has the mark `TE`.
    fn is_entity(self, n: u32) -> bool
        ensures { result ≡ is_entity_at self.entry.file.now self.entry.offsets.now n }
    {
        let i = n as usize;
        if self.offsets.len() <= i {
            return false;
        }
        read_field::part_of(self.file, self.offsets[i] as usize, 2) == b"TE".as_slice()
    }
}

// The record at a place of the file, after what stands before it.
pub fn next_record(earlier: Earlier<'_>, at: usize) -> Result<Record, Refusal>
    ensures { NextRecord (earlier_with earlier.entry.types earlier.entry.funs earlier.entry.terms earlier.entry.file.now earlier.entry.offsets.now) earlier.entry.file.now at result }
{
    let file = earlier.file;
    if (Cursor { body: file, at }).left() < 6 {
        return Err(Refusal::CutShort);
    }
    let Some(kind) = mark::kind_of(mark::untyped(file[at]), file[at + 1]) else {
        return Err(Refusal::UnknownMark);
    };
    let from = at + 2;
    let size = read_field::word(
        file[from],
        file[from + 1],
        file[from + 2],
        file[from + 3],
    ) as usize;
    let start = at + 6;
    if file.len() - start < size {
        return Err(Refusal::CutShort);
    }
    let end = start + size;
    let typed = mark::is_typed(file[at]);
    body::read_under(kind, typed, &file[start..end], earlier)?;
    Ok(Record { kind, start, end })
}
