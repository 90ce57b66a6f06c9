// What C callers link: the functions of `sakyelbo` under their C names, each with the same clauses.
#![tactic(auto)]

ghost use mathlib.Core.List.{map, zip};
ghost use Rattle.script_spec.specs.Command as command;
ghost use Rattle.sakyelbo.specs.Promise.{ChecksFile, EncodesFile, WritesCommand};

use sakyelbo::Where;

// Checks a file; the memory is all zero afterwards.
#[unsafe(no_mangle)]
pub extern "C" fn sakyelbo_check(file: &[u8], work: &mut [u32], at: &mut Where) -> u32
    ensures { ChecksFile file.now work.old work.new at.new result }
{
    sakyelbo::sakyelbo_check(file, work, at)
}

// Encodes a file: the script and zeros past it, and its length behind `size`; or zeros alone. The memory is all zero afterwards.
#[unsafe(no_mangle)]
pub extern "C" fn sakyelbo_encode(
    file: &[u8],
    work: &mut [u32],
    script: &mut [u8],
    size: &mut usize,
    at: &mut Where,
) -> u32
    ensures { EncodesFile file.now work.old script.old work.new script.new size.new at.new result }
{
    sakyelbo::sakyelbo_encode(file, work, script, size, at)
}

// `; COMMENT`, on one line: 200 code points of it at most, and spaces for control characters.
#[unsafe(no_mangle)]
pub extern "C" fn sakyelbo_comment(comment: &[u8], out: &mut [u8], size: &mut usize) -> u32
    ensures { WritesCommand (command.comment comment.now)
        out.old out.new size.new result }
{
    sakyelbo::commands::sakyelbo_comment(comment, out, size)
}

// `(declare-datatype ID (CONSTRUCTORS))`, or `(declare-datatype ID (par (PARAMS) (CONSTRUCTORS)))`.
#[unsafe(no_mangle)]
pub extern "C" fn sakyelbo_declare_datatype(
    id: &[u8],
    params: &[&[u8]],
    constructors: &[&[u8]],
    out: &mut [u8],
    size: &mut usize,
) -> u32
    ensures { WritesCommand (command.declare_datatype id.now (map (λ x. x.now) params.now) (map (λ x. x.now) constructors.now))
        out.old out.new size.new result }
{
    sakyelbo::commands::sakyelbo_declare_datatype(id, params, constructors, out, size)
}

// `(declare-const ID SORT)`.
#[unsafe(no_mangle)]
pub extern "C" fn sakyelbo_declare_const(
    id: &[u8],
    sort: &[u8],
    out: &mut [u8],
    size: &mut usize,
) -> u32
    ensures { WritesCommand (command.declare_const id.now sort.now)
        out.old out.new size.new result }
{
    sakyelbo::commands::sakyelbo_declare_const(id, sort, out, size)
}

// `(declare-fun ID (ARGS) SORT)`.
#[unsafe(no_mangle)]
pub extern "C" fn sakyelbo_declare_fun(
    id: &[u8],
    args: &[&[u8]],
    sort: &[u8],
    out: &mut [u8],
    size: &mut usize,
) -> u32
    ensures { WritesCommand (command.declare_fun id.now (map (λ x. x.now) args.now) sort.now)
        out.old out.new size.new result }
{
    sakyelbo::commands::sakyelbo_declare_fun(id, args, sort, out, size)
}

// `(define-fun ID (ARGS) SORT BODY)`; an argument is a name of `names` with the sort at its place in `sorts`.
#[unsafe(no_mangle)]
pub extern "C" fn sakyelbo_define_fun(
    id: &[u8],
    names: &[&[u8]],
    sorts: &[&[u8]],
    sort: &[u8],
    body: &[u8],
    out: &mut [u8],
    size: &mut usize,
) -> u32
    ensures { WritesCommand (command.define_fun id.now (zip (map (λ x. x.now) names.now) (map (λ x. x.now) sorts.now)) sort.now body.now)
        out.old out.new size.new result }
{
    sakyelbo::commands::sakyelbo_define_fun(id, names, sorts, sort, body, out, size)
}

// `(assert BODY)`.
#[unsafe(no_mangle)]
pub extern "C" fn sakyelbo_assert_that(body: &[u8], out: &mut [u8], size: &mut usize) -> u32
    ensures { WritesCommand (command.assert_that body.now)
        out.old out.new size.new result }
{
    sakyelbo::commands::sakyelbo_assert_that(body, out, size)
}

// `(set-logic LOGIC)`.
#[unsafe(no_mangle)]
pub extern "C" fn sakyelbo_set_logic(logic: &[u8], out: &mut [u8], size: &mut usize) -> u32
    ensures { WritesCommand (command.set_logic logic.now)
        out.old out.new size.new result }
{
    sakyelbo::commands::sakyelbo_set_logic(logic, out, size)
}

// `(set-option :OPTION VALUE)`.
#[unsafe(no_mangle)]
pub extern "C" fn sakyelbo_set_option(
    option: &[u8],
    value: &[u8],
    out: &mut [u8],
    size: &mut usize,
) -> u32
    ensures { WritesCommand (command.set_option option.now value.now)
        out.old out.new size.new result }
{
    sakyelbo::commands::sakyelbo_set_option(option, value, out, size)
}

// `(check-sat)`.
#[unsafe(no_mangle)]
pub extern "C" fn sakyelbo_check_sat(out: &mut [u8], size: &mut usize) -> u32
    ensures { WritesCommand command.check_sat
        out.old out.new size.new result }
{
    sakyelbo::commands::sakyelbo_check_sat(out, size)
}

// `(get-model)`.
#[unsafe(no_mangle)]
pub extern "C" fn sakyelbo_get_model(out: &mut [u8], size: &mut usize) -> u32
    ensures { WritesCommand command.get_model
        out.old out.new size.new result }
{
    sakyelbo::commands::sakyelbo_get_model(out, size)
}

// `(reset)`.
#[unsafe(no_mangle)]
pub extern "C" fn sakyelbo_reset(out: &mut [u8], size: &mut usize) -> u32
    ensures { WritesCommand command.reset
        out.old out.new size.new result }
{
    sakyelbo::commands::sakyelbo_reset(out, size)
}

// `(exit)`.
#[unsafe(no_mangle)]
pub extern "C" fn sakyelbo_exit(out: &mut [u8], size: &mut usize) -> u32
    ensures { WritesCommand command.exit
        out.old out.new size.new result }
{
    sakyelbo::commands::sakyelbo_exit(out, size)
}
