// Rules 9 and 10 of a term that stands at an offset of the file.
ghost use Rattle.index.specs.Standing.{mark_at};
ghost use Rattle.std.specs.Prelude.{Some};
ghost use Rattle.read_record.specs.Marks.{Marked};
ghost use Rattle.check_rules.specs.Decided.{LeavesMemory};
ghost use Rattle.check_rules.specs.Terms.{TermRule};

use crate::record::{list_ascends, list_differs};
use index::RecordsMut;
use index_compare::compare::byte_at;
use index_compare::record::body_at;
use read_field::Cursor;
use read_record::mark::Kind;
use refusal::Refusal;

// Rules 9 and 10 of a term of this kind; `depth` is the greatest of the arguments' depths, 0 where there are none; the memory is as it was.
pub fn broken_rule(
    records: &mut RecordsMut<'_>,
    offset: usize,
    kind: Kind,
    depth: u32,
) -> Result<(), Refusal>
    ensures { LeavesMemory records.old records.new (Marked (mark_at records.old.file.now offset) (Some kind) → TermRule records.old offset depth result) }
{
    let body = body_at(records.file, offset);
    match kind {
        Kind::XC => {
            if !list_differs(Cursor { body, at: 4 }, records) {
                return Err(Refusal::NotAscending);
            }
        }
        Kind::XR => {
            if !list_ascends::<true>(Cursor::new(body)) {
                return Err(Refusal::NotAscending);
            }
        }
        Kind::XA => {
            if depth == 0 && byte_at(body, 4) != read_operator::RECORD_GET {
                return Err(Refusal::NothingGiven);
            }
        }
        _ => {}
    }
    Ok(())
}
