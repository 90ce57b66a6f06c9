// Applications: what their operators ask for, their definitions, and what becomes of a `Bvnego`.
ghost use Rattle.read_operator.specs.Operators.{op_of};
ghost use Rattle.walk_names.specs.Progress.{Advances};
ghost use Rattle.write_terms.specs.Definitions.{OrdinaryIs};
ghost use Rattle.walk_new.specs.News.{AppAt, KnownAt, operator_walk, ordinary_walk, app_walk};

use crate::steps::{define, refuse_high};
use index_entry::terms::Application;
use read_operator::Op;
use refusal::Refusal;
use walk_names::naming::Named;
use walk_names::walk::{Stopped, Walk};
use walk_queries::queries::Negated;
use write_terms::applications::Comparison;
use write_terms::definitions::Body;

// What an operator asks for before its application is defined.
fn operator_step(walk: &mut Walk, call: Application<'_>) -> Result<(), Stopped>
    ensures { Advances (KnownAt call.entry.number (OrdinaryIs call.entry)) (operator_walk call.entry.number (op_of call.entry.op)) walk.old walk.new result }
{
    match call.op {
        Op::RecordGet(a) => crate::attributes::record_get(walk, call, a),
        Op::StringLike(pattern) => {
            let high = write_pattern::first_high(pattern);
            refuse_high(high, Refusal::HighPattern, call.number)
        }
        Op::Uuf(g) => {
            walk_types::encode_uuf(walk, g);
            Ok(())
        }
        _ => Ok(()),
    }
}

// Defines an application after what its operator asks for.
fn define_ordinary(walk: &mut Walk, call: Application<'_>) -> Result<(), Stopped>
    ensures { Advances (KnownAt call.entry.number (OrdinaryIs call.entry)) (ordinary_walk call.entry.number (op_of call.entry.op)) walk.old walk.new result }
{
    operator_step(walk, call)?;
    define(walk, call.number, Body::Ordinary(call.op, call.arguments))
}

// Defines an application; the `false` of a `Bvnego` is entered alone.
pub fn define_app(walk: &mut Walk, call: Application<'_>) -> Result<(), Stopped>
    ensures { Advances (AppAt call.entry) (app_walk call.entry.number (op_of call.entry.op)) walk.old walk.new result }
{
    if !walk_queries::queries::is_nego(call.op) {
        return define_ordinary(walk, call);
    }
    match walk_queries::queries::negation_of(walk.records.view(), call.number) {
        Negated::Falsehood => {
            walk.enter(Named::Terms, call.number);
            Ok(())
        }
        Negated::Comparison(width) => {
            let compared = Comparison {
                arguments: call.arguments,
                width,
            };
            define(walk, call.number, Body::Comparison(compared))
        }
        Negated::Ordinary => define_ordinary(walk, call),
    }
}
