// The records of an accepted file, read again by their offsets.
ghost use Rattle.std.specs.Prelude.{◌≡◌, get_or};
ghost use Rattle.index.specs.Standing.{mark_at, body_at};
ghost use Rattle.index.specs.Lists.{number_at};

use read_field::Cursor;

// The body of the record at an offset, as the file's own bytes.
pub fn body_at<'a>(file: &'a [u8], offset: u32) -> &'a [u8]
    ensures { result.now ≡ body_at file.now offset }
{
    index_compare::record::body_at(file, offset as usize)
}

// The number in the four bytes at a place; 0 where there are fewer.
pub fn number_at(body: &[u8], at: usize) -> u32
    ensures { result ≡ number_at body.now at }
{
    match (Cursor { body, at }).u32_le() {
        Ok((n, _)) => n,
        Err(_) => 0,
    }
}

// The second byte of the mark of the record at an offset, 0 where there is none.
#[tactic(auto, unfolding(index::specs::Standing::mark_at))]
pub fn letter_at(file: &[u8], offset: u32) -> u8
    ensures { result ≡ get_or (mark_at file.now offset) 1 0 }
{
    index_compare::compare::byte_at(file, offset as usize + 1)
}
