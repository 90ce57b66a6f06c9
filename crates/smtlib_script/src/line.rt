// What lines begin with, and the line of a comment.
ghost use Rattle.std.specs.Prelude.{◌≡◌};
ghost use Rattle.script_spec.specs.Command.{line, comment as commented};
ghost use Rattle.write_bytes.specs.Writers.{Writes};
ghost use Rattle.smtlib_script.specs.Opened.{opened};
ghost use Rattle.smtlib_script.specs.declared.line.Word.TheVariants.{DefineFun};

use write_bytes::writer::Writer;
use write_text::comment::Comment;

// What lines begin with: a comment, and the words of the commands that have texts.
#[derive(Clone, Copy)]
pub enum Word {
    Comment,
    DeclareDatatype,
    DeclareConst,
    DeclareFun,
    DefineFun,
    Assert,
    SetLogic,
    SetOption,
}

// What a definition begins with. Most lines of a script do, and these bytes by themselves cost less than the choice of a word.
#[tactic(auto, unfolding(crate::specs::Opened::opened, script_spec::specs::Base::bytes))]
pub fn put_define_fun(w: &mut Writer<'_>)
    ensures { Writes w.old w.new (opened DefineFun) }
{
    w.put(b"(define-fun ")
}

// What a line begins with: `; `, or a parenthesis, a command's word and a space.
#[tactic(auto, unfolding(crate::specs::Opened::opened, script_spec::specs::Base::bytes))]
pub fn put_word(w: &mut Writer<'_>, word: Word)
    ensures { Writes w.old w.new (opened word) }
{
    match word {
        Word::Comment => w.put(b"; "),
        Word::DeclareDatatype => w.put(b"(declare-datatype "),
        Word::DeclareConst => w.put(b"(declare-const "),
        Word::DeclareFun => w.put(b"(declare-fun "),
        Word::DefineFun => put_define_fun(w),
        Word::Assert => w.put(b"(assert "),
        Word::SetLogic => w.put(b"(set-logic "),
        Word::SetOption => w.put(b"(set-option "),
    }
}

// `; COMMENT`, on one line: 200 code points of it at most, and spaces for control characters.
pub fn comment(w: &mut Writer<'_>, text: &[u8])
    ensures { Writes w.old w.new (line (commented text.now)) }
{
    put_word(w, Word::Comment);
    Comment { points: 0 }.put(w, text);
    w.put_byte(b'\n')
}
