// The rules of an enum that stands at an offset of the file.
ghost use Rattle.std.specs.Prelude.{◌≡◌};
ghost use Rattle.script_spec.specs.Fields.{text};
ghost use Rattle.check_rules.specs.Decided.{DecidesList};
ghost use Rattle.read_field.specs.Takes.{Takes, bytes_of};
ghost use Rattle.check_rules.specs.Tests.{counted, any_given};
ghost use Rattle.check_rules.specs.Enums.{NameRead, MembersFrom, EnumAscends, EnumGiven, NameAt};

use crate::record::list_ascends;
use index_compare::record::body_at;
use read_field::Cursor;
use refusal::Refusal;

// A byte count and so many bytes: a text, which was tested when its record was read.
fn counted<'a>(c: Cursor<'a>) -> Result<(&'a [u8], Cursor<'a>), Refusal>
    ensures { Takes counted c.entry (bytes_of result) }
{
    let (n, rest) = c.u32_le()?;
    rest.part(n as usize)
}

// The text at the start of a body, and what stands after it: an enum's name, and its members.
fn parts_of<'a>(body: &'a [u8]) -> (&'a [u8], Cursor<'a>)
    ensures { NameRead body.now result.0.now × (result.1.body ≡ body.entry) × MembersFrom body.now result.1.at }
{
    let start = Cursor::new(body);
    counted(start).unwrap_or((body, start))
}

// Whether a list has any items.
fn list_given(list: Cursor<'_>) -> bool
    ensures { DecidesList text any_given list.entry.body.now list.entry.at result }
{
    match list.u32_le() {
        Ok((n, _)) => 0 < n,
        Err(_) => true,
    }
}

// Rule 9 of an enum: its members ascend.
pub fn members_ascend(file: &[u8], offset: usize) -> bool
    ensures { EnumAscends file.now offset result }
{
    list_ascends::<false>(parts_of(body_at(file, offset)).1)
}

// Rule 10 of an enum: it has members.
pub fn members_given(file: &[u8], offset: usize) -> bool
    ensures { EnumGiven file.now offset result }
{
    list_given(parts_of(body_at(file, offset)).1)
}

// The name of an enum.
pub fn name_at<'a>(file: &'a [u8], offset: usize) -> &'a [u8]
    ensures { NameAt file.now offset result.now }
{
    parts_of(body_at(file, offset)).0
}
