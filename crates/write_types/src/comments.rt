// Comments before declarations.
ghost use Rattle.script_spec.specs.Base.{bytes, joined};
ghost use Rattle.write_text.specs.Comments.{Comments};
ghost use Rattle.index_entry.specs.Places.{texts_in};

use index_entry::lists::Texts;
use write_bytes::writer::Writer;
use write_text::comment::Comment;

// Goes on with texts, with commas between them. Where the comment is over they are not looked at.
pub fn put_texts(w: &mut Writer<'_>, comment: Comment, mut texts: Texts<'_>) -> Comment
    ensures { Comments w.old comment w.new result (joined (bytes ", ") (texts_in texts.entry)) }
{
    let Some(first) = texts.next() else {
        return comment;
    };
    let mut text = comment.put(w, first);
    for item in texts {
        if text.is_over(w) {
            return text;
        }
        text = text.put(w, b", ").put(w, item);
    }
    text
}
