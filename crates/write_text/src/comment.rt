// The text of a comment, written piece by piece: on one line, and cut after so many code points.
ghost use Rattle.std.specs.Prelude.{◌≡◌, ◌≤◌};
ghost use Rattle.script_spec.specs.Text as text;
ghost use Rattle.write_bytes.specs.Writers.{Writes};
ghost use Rattle.write_text.specs.Comments.{over, Cuts, Comments};

use crate::Place;
use write_bytes::writer::Writer;

// A comment's text as far as it is written: how many code points it has; one more than the most where it is cut. It begins as
// `Comment { points: 0 }`.
#[derive(Clone, Copy)]
pub struct Comment {
    pub points: usize,
}

// Where a text ends in a comment, and how many code points the comment then has.
#[derive(Clone, Copy)]
struct Cut {
    end: usize,
    points: usize,
}

// A space for a control character, and else the byte.
#[tactic(auto, unfolding(script_spec::specs::Text::space_if))]
fn blank(b: u8) -> u8
    ensures { result ≡ text.space_if (text.is_control b) b }
{
    if crate::is_control(b) { b' ' } else { b }
}

// Writes a text with spaces for its control characters. Past the limit the text is not looked at.
fn put_blanked(w: &mut Writer<'_>, s: &[u8])
    ensures { Writes w.old w.new (text.blanked s.now) }
{
    let mut from = 0;
    while !w.is_past() {
        from += crate::put_run(w, Place::Comment, &s[from..]);
        if s.len() <= from {
            return;
        }
        w.put_byte(blank(s[from]));
        from += 1;
    }
}

// How many code points begin at a byte.
#[tactic(auto, unfolding(script_spec::specs::Text::begun, script_spec::specs::Base::between))]
fn begun(b: u8) -> usize
    ensures { result ≡ text.begun b }
{
    if 128 <= b && b <= 191 { 0 } else { 1 }
}

// Where a text is cut in a comment that has so many code points before it.
fn cut_text(s: &[u8], points: usize) -> Cut
    requires { points ≤ 200 }
    ensures { Cuts s.now points result }
{
    let mut sum = points;
    for (end, b) in s.iter().enumerate() {
        let next = sum + begun(*b);
        if crate::MOST < next {
            return Cut { end, points: next };
        }
        sum = next;
    }
    Cut {
        end: s.len(),
        points: sum,
    }
}

impl Comment {
    // Whether nothing is written of the text any more, since it is cut or past the limit.
    #[tactic(auto, unfolding(crate::specs::Comments::over))]
    pub fn is_over(self, w: &Writer<'_>) -> bool
        ensures { result ≡ over w.now self }
    {
        crate::MOST < self.points || w.is_past()
    }

    // Goes on with the text. Past its end and past the limit the piece is not looked at.
    pub fn put(self, w: &mut Writer<'_>, s: &[u8]) -> Comment
        ensures { Comments w.old self w.new result s.now }
    {
        if self.is_over(w) {
            return self;
        }
        let kept = cut_text(s, self.points);
        put_blanked(w, &s[..kept.end]);
        Comment {
            points: kept.points,
        }
    }
}
