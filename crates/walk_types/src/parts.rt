// The parts of a type, one after the other, by their numbers.
ghost use Rattle.walk_types.specs.Types.{PartsAt};

use index_entry::records;
use index_entry::terms::Children;
use index_entry::types::{self, TypeEntry};

// The parts of the type at an offset of the file: that of an option or a set, and those of a record type. Out of line it takes no
// stack while they are encoded.
#[inline(never)]
pub fn parts_at(file: &[u8], offset: u32) -> Children<'_>
    ensures { PartsAt file.now offset result }
{
    let body = records::body_at(file, offset);
    match types::type_at(file, offset) {
        TypeEntry::Option(_) | TypeEntry::Set(_) => Children::alone(body),
        TypeEntry::Record(attributes) => attributes,
        _ => Children::none(body),
    }
}
