// The record at an offset of a file: its mark, and its body. A type that is written behind the fields is left out of both here, for all who read on.
ghost use Rattle.std.specs.Prelude.{◌≡◌, get_or};
ghost use Rattle.script_spec.specs.Fields.{untyped};
ghost use Rattle.index.specs.Standing.{mark_at, body_at, type_size};
ghost use Rattle.read_record.specs.Marks.{Marked};
ghost use Rattle.index_compare.specs.View.{Decides};

use crate::compare::{byte_after, byte_at};
use read_record::mark::{self, Kind};

// The first byte of the mark of the record at an offset, or of the mark that it repeats; 0 where there is none.
pub fn first_letter(file: &[u8], offset: usize) -> u8
    ensures { result ≡ untyped (get_or file.now offset 0) }
{
    mark::untyped(byte_at(file, offset))
}

// The mark of the record at an offset, if it is one.
#[tactic(auto, unfolding(index::specs::Standing::mark_at))]
pub fn kind_at(file: &[u8], offset: usize) -> Option<Kind>
    ensures { Marked (mark_at file.now offset) result }
{
    let b = byte_after(file, offset);
    mark::kind_of(first_letter(file, offset), b)
}

// Whether the records at two offsets have one mark, or repeat one.
pub fn same_mark(file: &[u8], offset: usize, other: usize) -> bool
    ensures { Decides result (mark_at file.now offset ≡ mark_at file.now other) }
{
    let a = byte_after(file, offset);
    let b = byte_after(file, other);
    first_letter(file, offset) == first_letter(file, other) && a == b
}

// How many bytes a written type has.
#[tactic(auto, unfolding(index::specs::Standing::type_size))]
fn type_size(typed: bool) -> usize
    ensures { result ≡ type_size typed }
{
    if typed { 4 } else { 0 }
}

// The body of the record at an offset, as the file's own bytes, without a written type; none where fewer than six bytes are left.
pub fn body_at<'a>(file: &'a [u8], offset: usize) -> &'a [u8]
    ensures { result.now ≡ body_at file.now offset }
{
    let Some(record) = file.get(offset..) else {
        return &file[..0];
    };
    let [a, _, b, c, d, e, body @ ..] = record else {
        return &record[..0];
    };
    let size = read_field::word(*b, *c, *d, *e) as usize;
    let n = size.saturating_sub(type_size(mark::is_typed(*a)));
    read_field::part_of(body, 0, n)
}
