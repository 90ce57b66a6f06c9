// Lists in bodies: texts one after the other, with so many bytes between them. A text comes back as a part of the body.
ghost use Rattle.std.specs.Prelude.{◌≡◌, drop};
ghost use Rattle.std.specs.Iterator.{YieldsFirstRef, item_count};
ghost use Rattle.index.specs.Lists.{first_text};
ghost use Rattle.index_entry.specs.Places.{texts_in, rest_after_text, PastText};

use crate::records::number_at;

// So many texts from a place of a body on, with so many bytes after each.
#[derive(Clone, Copy)]
pub struct Texts<'a> {
    pub body: &'a [u8],
    pub from: usize,
    pub left: u32,
    pub skip: usize,
}

// The place n bytes on, or the end of the body.
pub fn past(body: &[u8], at: usize, n: usize) -> usize
    ensures { drop result body.now ≡ drop n (drop at body.now) }
{
    at.saturating_add(n).min(body.len())
}

// The text that stands at a place, after its count.
pub fn text_at(body: &[u8], at: usize) -> &[u8]
    ensures { result.now ≡ first_text (drop at body.now) }
{
    let n = number_at(body, at) as usize;
    let start = past(body, at, 4);
    read_field::part_of(body, start, n)
}

// The place after the text that stands at a place.
pub fn past_text(body: &[u8], at: usize) -> usize
    ensures { PastText body.now at result }
{
    let n = number_at(body, at) as usize;
    let start = past(body, at, 4);
    past(body, start, n)
}

// The place after the text at a place and so many bytes.
pub fn after_text(body: &[u8], at: usize, skip: usize) -> usize
    ensures { drop result body.now ≡ rest_after_text skip (drop at body.now) }
{
    let end = past_text(body, at);
    past(body, end, skip)
}

impl<'a> Iterator for Texts<'a> {
    type Item = &'a [u8];

    ghost next_gives = { YieldsFirstRef texts_in };

    ghost remaining = { item_count texts_in };

    fn next(&mut self) -> Option<&'a [u8]> {
        if self.left == 0 {
            return None;
        }
        let text = text_at(self.body, self.from);
        self.from = after_text(self.body, self.from, self.skip);
        self.left -= 1;
        Some(text)
    }
}
