// The assertions of the inputs of a file, in their order.
ghost use Rattle.encoder.specs.Inputs.{SpellsAssertions};

use index::{Column, Records};
use write_bytes::writer::Writer;
use write_terms::lines::Assertion;

// Writes the assertions of an accepted file, each as a line in the rest of the script, as far as the limit.
pub fn put_assertions(records: Records<'_>, w: &mut Writer<'_>)
    ensures { SpellsAssertions records.entry w.old w.new }
{
    for i in 0..records.sizes.inputs {
        if w.is_past() {
            return;
        }
        let number = records.get(Column::InputTerm, i);
        w.lend(Assertion { records, number });
    }
}
