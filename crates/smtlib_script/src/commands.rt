// The public functions that write a command. Each is written with its final byte 10 into a lent buffer, if its texts are UTF-8 and it
// fits; else the buffer is left all zero.
#![tactic(auto, unfolding(crate::specs::Commands::command_of))]

ghost use mathlib.Core.List.{map, zip};
ghost use Rattle.script_spec.specs.Command as command;
ghost use Rattle.smtlib_script.specs.Alone.{WritesAlone};

use crate::command::Command;
use refusal::Refusal;

// `; COMMENT`, on one line: 200 code points of it at most, and spaces for control characters.
pub fn comment(comment: &[u8], out: &mut [u8]) -> Result<usize, Refusal>
    ensures { WritesAlone (command.comment comment.now) out.old out.new result }
{
    Command::Comment(comment).write(out)
}

// `(declare-datatype ID (CONSTRUCTORS))`, or `(declare-datatype ID (par (PARAMS) (CONSTRUCTORS)))`.
pub fn declare_datatype(
    id: &[u8],
    params: &[&[u8]],
    constructors: &[&[u8]],
    out: &mut [u8],
) -> Result<usize, Refusal>
    ensures { WritesAlone (command.declare_datatype id.now (map (λ x. x.now) params.now) (map (λ x. x.now) constructors.now))
        out.old out.new result }
{
    Command::DeclareDatatype(id, params, constructors).write(out)
}

// `(declare-const ID SORT)`.
pub fn declare_const(id: &[u8], sort: &[u8], out: &mut [u8]) -> Result<usize, Refusal>
    ensures { WritesAlone (command.declare_const id.now sort.now) out.old out.new result }
{
    Command::DeclareConst(id, sort).write(out)
}

// `(declare-fun ID (ARGS) SORT)`.
pub fn declare_fun(id: &[u8], args: &[&[u8]], sort: &[u8], out: &mut [u8]) -> Result<usize, Refusal>
    ensures { WritesAlone (command.declare_fun id.now (map (λ x. x.now) args.now) sort.now)
        out.old out.new result }
{
    Command::DeclareFun(id, args, sort).write(out)
}

// `(define-fun ID (ARGS) SORT BODY)`; an argument is a name of `names` with the sort at its place in `sorts`.
pub fn define_fun(
    id: &[u8],
    names: &[&[u8]],
    sorts: &[&[u8]],
    sort: &[u8],
    body: &[u8],
    out: &mut [u8],
) -> Result<usize, Refusal>
    ensures { WritesAlone (command.define_fun id.now (zip (map (λ x. x.now) names.now) (map (λ x. x.now) sorts.now)) sort.now body.now)
        out.old out.new result }
{
    Command::DefineFun(id, names, sorts, sort, body).write(out)
}

// `(assert BODY)`.
pub fn assert_that(body: &[u8], out: &mut [u8]) -> Result<usize, Refusal>
    ensures { WritesAlone (command.assert_that body.now) out.old out.new result }
{
    Command::Assert(body).write(out)
}

// `(set-logic LOGIC)`.
pub fn set_logic(logic: &[u8], out: &mut [u8]) -> Result<usize, Refusal>
    ensures { WritesAlone (command.set_logic logic.now) out.old out.new result }
{
    Command::SetLogic(logic).write(out)
}

// `(set-option :OPTION VALUE)`.
pub fn set_option(option: &[u8], value: &[u8], out: &mut [u8]) -> Result<usize, Refusal>
    ensures { WritesAlone (command.set_option option.now value.now) out.old out.new result }
{
    Command::SetOption(option, value).write(out)
}

// `(check-sat)`.
pub fn check_sat(out: &mut [u8]) -> Result<usize, Refusal>
    ensures { WritesAlone command.check_sat out.old out.new result }
{
    Command::CheckSat.write(out)
}

// `(get-model)`.
pub fn get_model(out: &mut [u8]) -> Result<usize, Refusal>
    ensures { WritesAlone command.get_model out.old out.new result }
{
    Command::GetModel.write(out)
}

// `(reset)`.
pub fn reset(out: &mut [u8]) -> Result<usize, Refusal>
    ensures { WritesAlone command.reset out.old out.new result }
{
    Command::Reset.write(out)
}

// `(exit)`.
pub fn exit(out: &mut [u8]) -> Result<usize, Refusal>
    ensures { WritesAlone command.exit out.old out.new result }
{
    Command::Exit.write(out)
}
