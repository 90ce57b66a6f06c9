// A command with its texts: whether they are UTF-8, its line, and the line alone in a buffer.
ghost use Rattle.std.specs.Prelude.{◌≡◌, ◌++◌};
ghost use mathlib.Core.List.{map, zip};
ghost use Rattle.script_spec.specs.Base.{all, bytes};
ghost use Rattle.script_spec.specs.Utf8.{is_utf8};
ghost use Rattle.script_spec.specs.Command.{line, given, spaced, datatype_body, declare_datatype, declare_const, declare_fun, define_fun, set_option};
ghost use Rattle.write_bytes.specs.Writers.{Writes};
ghost use Rattle.smtlib_script.specs.Opened.{opened};
ghost use Rattle.smtlib_script.specs.Commands.{command_of};
ghost use Rattle.smtlib_script.specs.Alone.{WritesAlone};

use crate::line::Word;
use crate::{line, list};
use read_utf8::is_utf8;
use refusal::Refusal;
use write_bytes::writer::Writer;

// A command with its texts. Of a function's arguments the names stand in one list, and the sorts in another.
#[derive(Clone, Copy)]
pub enum Command<'a> {
    Comment(&'a [u8]),
    DeclareDatatype(&'a [u8], &'a [&'a [u8]], &'a [&'a [u8]]),
    DeclareConst(&'a [u8], &'a [u8]),
    DeclareFun(&'a [u8], &'a [&'a [u8]], &'a [u8]),
    DefineFun(&'a [u8], &'a [&'a [u8]], &'a [&'a [u8]], &'a [u8], &'a [u8]),
    Assert(&'a [u8]),
    SetLogic(&'a [u8]),
    SetOption(&'a [u8], &'a [u8]),
    CheckSat,
    GetModel,
    Reset,
    Exit,
}

// A datatype's body; `par` stands where the parameters, joined, are not empty.
fn put_datatype_body(w: &mut Writer<'_>, params: &[&[u8]], constructors: &[&[u8]])
    ensures { Writes w.old w.new (datatype_body (spaced (map (λ x. x.now) params.now)) (map (λ x. x.now) constructors.now)) }
{
    if list::is_blank(params) {
        return list::put_constructors(w, constructors);
    }
    w.put(b"(par ");
    list::put_list(w, params);
    w.put_byte(b' ');
    list::put_constructors(w, constructors);
    w.put_byte(b')')
}

// `(declare-datatype ID (CONSTRUCTORS))`, or `(declare-datatype ID (par (PARAMS) (CONSTRUCTORS)))`.
fn put_declare_datatype(w: &mut Writer<'_>, id: &[u8], params: &[&[u8]], constructors: &[&[u8]])
    ensures { Writes w.old w.new (line (declare_datatype id.now (map (λ x. x.now) params.now) (map (λ x. x.now) constructors.now))) }
{
    line::put_word(w, Word::DeclareDatatype);
    w.put(id);
    w.put_byte(b' ');
    put_datatype_body(w, params, constructors);
    w.put(b")\n")
}

// `(declare-const ID SORT)`.
fn put_declare_const(w: &mut Writer<'_>, id: &[u8], sort: &[u8])
    ensures { Writes w.old w.new (line (declare_const id.now sort.now)) }
{
    line::put_word(w, Word::DeclareConst);
    list::put_two(w, id, sort);
    w.put(b")\n")
}

// `(declare-fun ID (ARGS) SORT)`.
fn put_declare_fun(w: &mut Writer<'_>, id: &[u8], args: &[&[u8]], sort: &[u8])
    ensures { Writes w.old w.new (line (declare_fun id.now (map (λ x. x.now) args.now) sort.now)) }
{
    line::put_word(w, Word::DeclareFun);
    w.put(id);
    w.put_byte(b' ');
    list::put_list(w, args);
    w.put_byte(b' ');
    w.put(sort);
    w.put(b")\n")
}

// `(define-fun ID (ARGS) SORT BODY)`; an argument is a name of `names` with the sort at its place in `sorts`.
fn put_define_fun(
    w: &mut Writer<'_>,
    id: &[u8],
    names: &[&[u8]],
    sorts: &[&[u8]],
    sort: &[u8],
    body: &[u8],
)
    ensures { Writes w.old w.new
        (line (define_fun id.now (zip (map (λ x. x.now) names.now) (map (λ x. x.now) sorts.now)) sort.now body.now)) }
{
    line::put_define_fun(w);
    w.put(id);
    w.put_byte(b' ');
    list::put_arguments(w, names, sorts);
    w.put_byte(b' ');
    list::put_two(w, sort, body);
    w.put(b")\n")
}

// `(WORD TEXT)`.
fn put_one(w: &mut Writer<'_>, word: Word, text: &[u8])
    ensures { Writes w.old w.new (opened word ++ (text.now ++ bytes ")\n")) }
{
    line::put_word(w, word);
    w.put(text);
    w.put(b")\n")
}

// `(set-option :OPTION VALUE)`.
fn put_set_option(w: &mut Writer<'_>, option: &[u8], value: &[u8])
    ensures { Writes w.old w.new (line (set_option option.now value.now)) }
{
    line::put_word(w, Word::SetOption);
    w.put_byte(b':');
    list::put_two(w, option, value);
    w.put(b")\n")
}

impl Command<'_> {
    // Whether each of its texts is UTF-8.
    #[inline(always)]
    #[tactic(auto, using(crate::proofs::Laws::all_append), unfolding(crate::specs::Commands::command_of, script_spec::specs::Command::given, script_spec::specs::Base::all))]
    fn is_utf8(self) -> bool
        ensures { result ≡ all is_utf8 (given (command_of self.entry)) }
    {
        match self {
            Command::Comment(text) => is_utf8(text),
            Command::DeclareDatatype(id, params, constructors) => {
                is_utf8(id) && list::are_utf8(params) && list::are_utf8(constructors)
            }
            Command::DeclareConst(id, sort) => is_utf8(id) && is_utf8(sort),
            Command::DeclareFun(id, args, sort) => {
                is_utf8(id) && list::are_utf8(args) && is_utf8(sort)
            }
            Command::DefineFun(id, names, sorts, sort, body) => {
                is_utf8(id) && list::pairs_are_utf8(names, sorts) && is_utf8(sort) && is_utf8(body)
            }
            Command::Assert(body) => is_utf8(body),
            Command::SetLogic(logic) => is_utf8(logic),
            Command::SetOption(option, value) => is_utf8(option) && is_utf8(value),
            Command::CheckSat => true,
            Command::GetModel => true,
            Command::Reset => true,
            Command::Exit => true,
        }
    }

    // Writes its line.
    #[inline(always)]
    #[tactic(auto, unfolding(crate::specs::Commands::command_of))]
    pub fn put(self, w: &mut Writer<'_>)
        ensures { Writes w.old w.new (line (command_of self.entry)) }
    {
        match self {
            Command::Comment(text) => line::comment(w, text),
            Command::DeclareDatatype(id, params, constructors) => {
                put_declare_datatype(w, id, params, constructors)
            }
            Command::DeclareConst(id, sort) => put_declare_const(w, id, sort),
            Command::DeclareFun(id, args, sort) => put_declare_fun(w, id, args, sort),
            Command::DefineFun(id, names, sorts, sort, body) => {
                put_define_fun(w, id, names, sorts, sort, body)
            }
            Command::Assert(body) => put_one(w, Word::Assert, body),
            Command::SetLogic(logic) => put_one(w, Word::SetLogic, logic),
            Command::SetOption(option, value) => put_set_option(w, option, value),
            Command::CheckSat => w.put(b"(check-sat)\n"),
            Command::GetModel => w.put(b"(get-model)\n"),
            Command::Reset => w.put(b"(reset)\n"),
            Command::Exit => w.put(b"(exit)\n"),
        }
    }

    // Writes its line alone into a buffer, if its texts are UTF-8 and it fits: the length, and zeros past it; else zeros alone. In line each of the
    // twelve functions keeps what its command needs.
    #[inline(always)]
    pub fn write(self, out: &mut [u8]) -> Result<usize, Refusal>
        ensures { WritesAlone (command_of self.entry) out.old out.new result }
    {
        if !self.is_utf8() {
            write_bytes::clear(out, 0);
            return Err(Refusal::NotUtf8);
        }
        let mut script = Writer::new(out);
        self.put(&mut script);
        script.finish()
    }
}
