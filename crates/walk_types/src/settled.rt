// Types that have nothing left to declare.
ghost use Rattle.walk_types.specs.Types.{SettlesBy, Settled};

use index::{Column, Records};
use walk_names::naming::{self, Named};

// What tells whether a type is settled: its mark alone, which says that it is, its part, or its name.
#[derive(Clone, Copy)]
enum SettledBy {
    Mark,
    Part,
    Name,
}

// What tells it of the type at an offset of the file.
fn settled_by(file: &[u8], offset: u32) -> SettledBy
    ensures { SettlesBy file.now offset result }
{
    match index_entry::records::letter_at(file, offset) {
        b'B' | b'S' | b'V' => SettledBy::Mark,
        b'O' | b'C' => SettledBy::Part,
        _ => SettledBy::Name,
    }
}

// Whether the walk over the type with number t has nothing to do, where this is no option and no set; of those nothing is said.
fn is_settled_itself(records: Records<'_>, t: u32) -> bool
    ensures { Settled records.entry t result }
{
    match settled_by(records.file, records.get(Column::TypeOffset, t)) {
        SettledBy::Mark => true,
        SettledBy::Part => false,
        SettledBy::Name => naming::get(records, Named::Types, t).is_some(),
    }
}

// Whether the walk over the type with number t has nothing to do. An option or a set asks the type that is noted as under all of them.
pub fn is_settled(records: Records<'_>, t: u32) -> bool
    ensures { Settled records.entry t result }
{
    match settled_by(records.file, records.get(Column::TypeOffset, t)) {
        SettledBy::Part => is_settled_itself(records, records.get(Column::TypeList, t)),
        _ => is_settled_itself(records, t),
    }
}
