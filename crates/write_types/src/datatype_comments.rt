// Comments of enums.
ghost use Rattle.std.proofs.Math.Option.{some};
ghost use Rattle.script_spec.specs.Command.{line, comment};
ghost use Rattle.script_spec.specs.Spelling.{entity_comment};
ghost use Rattle.write_bytes.specs.Writers.{Writes};
ghost use Rattle.index_entry.specs.Places.{texts_in};

use crate::comments;
use index_entry::lists::Texts;
use smtlib_script::line::Word;
use write_bytes::writer::Writer;
use write_text::comment::Comment;

// Writes the comment of an enum as a line.
pub fn put_enum_comment(w: &mut Writer<'_>, name: &[u8], members: Texts<'_>)
    ensures { Writes w.old w.new (line (comment (entity_comment name.now (some (texts_in members.entry))))) }
{
    smtlib_script::line::put_word(w, Word::Comment);
    let text = Comment { points: 0 }.put(w, name).put(w, b"::[");
    comments::put_texts(w, text, members).put(w, b"]");
    w.put_byte(b'\n')
}
