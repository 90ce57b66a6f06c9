// Entering an enum into the index.
ghost use Rattle.check_enter.specs.Entering.{Enters};
ghost use Rattle.check_enter.specs.Enums.{enum_named};

use check_rules::members;
use index::{Column, RecordsMut};
use refusal::Refusal;

// Enters the enum at an offset, without a list of members.
pub fn enter_enum(records: &mut RecordsMut<'_>, offset: u32) -> Result<(), Refusal>
    ensures { Enters enum_named records.old records.new offset result }
{
    let at = offset as usize;
    if !members::members_ascend(records.file, at) {
        return Err(Refusal::NotAscending);
    }
    if !members::members_given(records.file, at) {
        return Err(Refusal::NothingGiven);
    }
    let n = records.sizes.enums;
    let name = members::name_at(records.file, at);
    if index_search::enums::enrol(records, name).is_some() {
        return Err(Refusal::SecondEnum);
    }
    records.set(Column::EnumOffset, n, offset);
    records.set(Column::EnumList, n, 0);
    records.sizes.enums = n.saturating_add(1);
    Ok(())
}
