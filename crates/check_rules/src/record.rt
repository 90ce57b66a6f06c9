// Rules 9 and 10 of a record that stands at an offset of the file.
ghost use Rattle.script_spec.specs.Base.{ascending};
ghost use Rattle.script_spec.specs.Fields.{u32};
ghost use Rattle.check_rules.specs.Decided.{DecidesList, LeavesMemory};
ghost use Rattle.check_rules.specs.Tests.{item_text, different_terms};
ghost use Rattle.check_rules.specs.Records.{TypeAscends};

use index::RecordsMut;
use index_compare::record::{body_at, kind_at};
use read_field::Cursor;
use read_record::mark::Kind;

// Whether the texts of a list ascend.
pub fn list_ascends<const NAMED: bool>(list: Cursor<'_>) -> bool
    ensures { DecidesList (item_text NAMED) ascending list.entry.body.now list.entry.at result }
{
    match list.u32_le() {
        Ok((n, rest)) => crate::ascending::ascend::<NAMED>(rest, n),
        Err(_) => true,
    }
}

// Whether the terms of a list differ; the memory is as it was.
pub fn list_differs(list: Cursor<'_>, records: &mut RecordsMut<'_>) -> bool
    ensures { LeavesMemory records.old records.new (DecidesList u32 (different_terms records.old.work.now records.old.sizes.rows) list.entry.body.now list.entry.at result) }
{
    match list.u32_le() {
        Ok((n, rest)) => crate::distinct::differ(rest, records, n),
        Err(_) => true,
    }
}

// Rule 9 of a type: the attributes of a record type ascend.
pub fn attributes_ascend(file: &[u8], offset: usize) -> bool
    ensures { TypeAscends file.now offset result }
{
    let Some(kind) = kind_at(file, offset) else {
        return true;
    };
    match kind {
        Kind::TR => list_ascends::<true>(Cursor::new(body_at(file, offset))),
        _ => true,
    }
}
