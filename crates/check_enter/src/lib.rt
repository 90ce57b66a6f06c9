// Entering a record into the index: the rules that it must keep, and its row; and it is counted.
#![tactic(auto)]

pub mod enums;
pub mod inputs;
pub mod terms;

ghost use Rattle.script_spec.specs.File.{type, func};
ghost use Rattle.check_enter.specs.Entering.{Enters, StoresType};

use index::{Column, RecordsMut};
use index_compare::compare::greatest;
use index_compare::segments::Referent;
use index_search::search::Compared;
use refusal::Refusal;

// As many types as there may be, and as many terms.
pub const MOST: u32 = 60000;

// The greatest depth that a part of a type or of a term may have.
pub const DEEPEST_PART: u32 = 255;

// Enters the function at an offset, without a name.
pub fn enter_fun(records: &mut RecordsMut<'_>, offset: u32) -> Result<(), Refusal>
    ensures { Enters func records.old records.new offset result }
{
    let n = records.sizes.funs;
    let first = index_search::search::enrol(records, Compared::Funs, offset as usize);
    records.set(Column::FunOffset, n, offset);
    records.set(Column::FunFirst, n, first);
    records.set(Column::FunName, n, 0);
    records.sizes.funs = n.saturating_add(1);
    Ok(())
}

// Stores the row of a type, with its depth and without a list of attributes, and counts it.
fn store_type(records: &mut RecordsMut<'_>, offset: u32, depth: u32)
    ensures { StoresType records.old records.new offset depth }
{
    let n = records.sizes.types;
    let first = index_search::search::enrol(records, Compared::Types, offset as usize);
    records.set(Column::TypeOffset, n, offset);
    records.set(Column::TypeFirst, n, first);
    records.set(Column::TypeDepth, n, depth);
    records.set(Column::TypeList, n, 0);
    records.sizes.types = n.saturating_add(1);
}

// Enters the type at an offset.
pub fn enter_type(records: &mut RecordsMut<'_>, offset: u32) -> Result<(), Refusal>
    ensures { Enters type records.old records.new offset result }
{
    if !check_rules::record::attributes_ascend(records.file, offset as usize) {
        return Err(Refusal::NotAscending);
    }
    if MOST <= records.sizes.types {
        return Err(Refusal::TooMany);
    }
    index_search::octets(records.file);
    let deepest = greatest(records.view(), offset as usize, Referent::Type);
    if DEEPEST_PART < deepest {
        return Err(Refusal::TooMany);
    }
    store_type(records, offset, deepest + 1);
    Ok(())
}
