// The commands of an SMT-LIB script, each written with its final byte 10 into a lent buffer. The size is 0 after a refusal.
ghost use mathlib.Core.List.{map, zip};
ghost use Rattle.script_spec.specs.Command as command;
ghost use Rattle.sakyelbo.specs.Promise.{WritesCommand};

// `; COMMENT`, on one line: 200 code points of it at most, and spaces for control characters.
pub fn sakyelbo_comment(comment: &[u8], out: &mut [u8], size: &mut usize) -> u32
    ensures { WritesCommand (command.comment comment.now)
        out.old out.new size.new result }
{
    crate::answers::of_command(smtlib_script::commands::comment(comment, out), size)
}

// `(declare-datatype ID (CONSTRUCTORS))`, or `(declare-datatype ID (par (PARAMS) (CONSTRUCTORS)))`.
pub fn sakyelbo_declare_datatype(
    id: &[u8],
    params: &[&[u8]],
    constructors: &[&[u8]],
    out: &mut [u8],
    size: &mut usize,
) -> u32
    ensures { WritesCommand (command.declare_datatype id.now (map (λ x. x.now) params.now) (map (λ x. x.now) constructors.now))
        out.old out.new size.new result }
{
    crate::answers::of_command(
        smtlib_script::commands::declare_datatype(id, params, constructors, out),
        size,
    )
}

// `(declare-const ID SORT)`.
pub fn sakyelbo_declare_const(id: &[u8], sort: &[u8], out: &mut [u8], size: &mut usize) -> u32
    ensures { WritesCommand (command.declare_const id.now sort.now)
        out.old out.new size.new result }
{
    crate::answers::of_command(smtlib_script::commands::declare_const(id, sort, out), size)
}

// `(declare-fun ID (ARGS) SORT)`.
pub fn sakyelbo_declare_fun(
    id: &[u8],
    args: &[&[u8]],
    sort: &[u8],
    out: &mut [u8],
    size: &mut usize,
) -> u32
    ensures { WritesCommand (command.declare_fun id.now (map (λ x. x.now) args.now) sort.now)
        out.old out.new size.new result }
{
    crate::answers::of_command(
        smtlib_script::commands::declare_fun(id, args, sort, out),
        size,
    )
}

// `(define-fun ID (ARGS) SORT BODY)`; an argument is a name of `names` with the sort at its place in `sorts`.
pub fn sakyelbo_define_fun(
    id: &[u8],
    names: &[&[u8]],
    sorts: &[&[u8]],
    sort: &[u8],
    body: &[u8],
    out: &mut [u8],
    size: &mut usize,
) -> u32
    ensures { WritesCommand (command.define_fun id.now (zip (map (λ x. x.now) names.now) (map (λ x. x.now) sorts.now)) sort.now body.now)
        out.old out.new size.new result }
{
    crate::answers::of_command(
        smtlib_script::commands::define_fun(id, names, sorts, sort, body, out),
        size,
    )
}

// `(assert BODY)`.
pub fn sakyelbo_assert_that(body: &[u8], out: &mut [u8], size: &mut usize) -> u32
    ensures { WritesCommand (command.assert_that body.now)
        out.old out.new size.new result }
{
    crate::answers::of_command(smtlib_script::commands::assert_that(body, out), size)
}

// `(set-logic LOGIC)`.
pub fn sakyelbo_set_logic(logic: &[u8], out: &mut [u8], size: &mut usize) -> u32
    ensures { WritesCommand (command.set_logic logic.now)
        out.old out.new size.new result }
{
    crate::answers::of_command(smtlib_script::commands::set_logic(logic, out), size)
}

// `(set-option :OPTION VALUE)`.
pub fn sakyelbo_set_option(option: &[u8], value: &[u8], out: &mut [u8], size: &mut usize) -> u32
    ensures { WritesCommand (command.set_option option.now value.now)
        out.old out.new size.new result }
{
    crate::answers::of_command(
        smtlib_script::commands::set_option(option, value, out),
        size,
    )
}

// `(check-sat)`.
pub fn sakyelbo_check_sat(out: &mut [u8], size: &mut usize) -> u32
    ensures { WritesCommand command.check_sat
        out.old out.new size.new result }
{
    crate::answers::of_command(smtlib_script::commands::check_sat(out), size)
}

// `(get-model)`.
pub fn sakyelbo_get_model(out: &mut [u8], size: &mut usize) -> u32
    ensures { WritesCommand command.get_model
        out.old out.new size.new result }
{
    crate::answers::of_command(smtlib_script::commands::get_model(out), size)
}

// `(reset)`.
pub fn sakyelbo_reset(out: &mut [u8], size: &mut usize) -> u32
    ensures { WritesCommand command.reset
        out.old out.new size.new result }
{
    crate::answers::of_command(smtlib_script::commands::reset(out), size)
}

// `(exit)`.
pub fn sakyelbo_exit(out: &mut [u8], size: &mut usize) -> u32
    ensures { WritesCommand command.exit
        out.old out.new size.new result }
{
    crate::answers::of_command(smtlib_script::commands::exit(out), size)
}
