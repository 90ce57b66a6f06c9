// What the steps over a new term share: a test of its text, its declaration and its definition.
ghost use Rattle.std.specs.Prelude.{◌≡◌};
ghost use Rattle.walk_names.specs.Progress.{Advances};
ghost use Rattle.write_terms.specs.Definitions.{BodyIs};
ghost use Rattle.walk_new.specs.Steps.{new_walk, high_told};
ghost use Rattle.walk_new.specs.News.{VariableAt, KnownAt, define_walk};

use refusal::Refusal;
use walk_names::naming::Named;
use walk_names::walk::{Stopped, Walk};
use write_terms::definitions::{Body, Definition};
use write_terms::lines::VariableLines;

// Refuses the term with number n at the position of a code point in its text that is too high, if there is one.
pub(crate) fn refuse_high(high: Option<usize>, refusal: Refusal, n: u32) -> Result<(), Stopped>
    ensures { result ≡ high_told high refusal n }
{
    match high {
        None => Ok(()),
        Some(position) => Err(Stopped {
            refusal,
            term: n,
            position,
        }),
    }
}

// Enters the term with number n, a variable, and declares it.
pub(crate) fn declare(walk: &mut Walk, n: u32) -> Result<(), Stopped>
    ensures { Advances (VariableAt n) (new_walk n) walk.old walk.new result }
{
    walk.enter(Named::Terms, n);
    walk.script.lend(VariableLines {
        records: walk.records.view(),
        number: n,
    });
    Ok(())
}

// Enters the term with number n, and defines it by what its body is.
pub(crate) fn define(walk: &mut Walk, n: u32, body: Body<'_>) -> Result<(), Stopped>
    ensures { Advances (KnownAt n (BodyIs n body.entry)) (define_walk n) walk.old walk.new result }
{
    walk.enter(Named::Terms, n);
    walk.script.lend(Definition {
        records: walk.records.view(),
        number: n,
        body,
    });
    Ok(())
}
