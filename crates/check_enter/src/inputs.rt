// Entering an input into the index.
ghost use Rattle.script_spec.specs.File.{input};
ghost use Rattle.check_enter.specs.Entering.{Enters};

use index::{Column, RecordsMut};
use index_entry::records::{body_at, number_at};
use refusal::Refusal;

// Enters the input at an offset: the number of its term is its body.
pub fn enter_input(records: &mut RecordsMut<'_>, offset: u32) -> Result<(), Refusal>
    ensures { Enters input records.old records.new offset result }
{
    let term = number_at(body_at(records.file, offset), 0);
    let n = records.sizes.inputs;
    records.set(Column::InputTerm, n, term);
    records.sizes.inputs = n.saturating_add(1);
    Ok(())
}
