// String literals: whether SMT-LIB's strings have every code point.
ghost use Rattle.std.specs.Prelude.{◌≡◌};
ghost use Rattle.walk_names.specs.Progress.{Advances};
ghost use Rattle.walk_new.specs.Steps.{LiteralAt, new_walk};

use index::Column;
use refusal::Refusal;
use walk_names::walk::{Stopped, Walk};

// What is noted of a string literal whose text SMT-LIB's strings have.
const PASSED: u32 = 1;

// Refuses the string literal with number n where SMT-LIB's strings do not have its text. A literal gets no name, so the walk comes to it
// at each of its uses: that it has passed is noted, and its text is tested once.
pub fn check_literal(walk: &mut Walk, n: u32, s: &[u8]) -> Result<(), Stopped>
    ensures advances { Advances (LiteralAt n s.now) (new_walk n) walk.old walk.new result }
    ensures script { walk.new.script ≡ walk.old.script }
{
    if walk.records.get(Column::Note, n) != 0 {
        return Ok(());
    }
    crate::steps::refuse_high(read_utf8::first_high(s), Refusal::HighString, n)?;
    walk.records.set(Column::Note, n, PASSED);
    Ok(())
}
