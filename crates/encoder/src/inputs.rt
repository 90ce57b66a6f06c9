// The walk over the inputs of a file, in their order.
ghost use Rattle.walk_names.specs.Progress.{Advances};
ghost use Rattle.encoder.specs.Inputs.{any_ready, inputs_walk};

use index::Column;
use walk_names::walk::{Stopped, Walk};

// Encodes the inputs of an accepted file.
pub fn encode_inputs(walk: &mut Walk) -> Result<(), Stopped>
    ensures { Advances any_ready inputs_walk walk.old walk.new result }
{
    for i in 0..walk.records.sizes.inputs {
        let n = walk.records.get(Column::InputTerm, i);
        walk_terms::encode_term(walk, n)?;
    }
    Ok(())
}
