// Texts of a list that ascend strictly.
ghost use Rattle.script_spec.specs.Base.{ascending};
ghost use Rattle.read_field.specs.Takes.{Takes, bytes_of};
ghost use Rattle.check_rules.specs.Decided.{DecidesItems};
ghost use Rattle.check_rules.specs.Tests.{item_text, ascending_after};

use read_field::Cursor;
use refusal::Refusal;

// The text of an item, which stands alone or before a reference.
fn item_text<'a, const NAMED: bool>(c: Cursor<'a>) -> Result<(&'a [u8], Cursor<'a>), Refusal>
    ensures { Takes (item_text NAMED) c.entry (bytes_of result) }
{
    if !NAMED {
        return c.text();
    }
    let (text, rest) = c.text()?;
    let (_, after) = rest.u32_le()?;
    Ok((text, after))
}

// Whether so many texts ascend after a first one.
fn ascend_after<'a, const NAMED: bool>(rest: Cursor<'a>, first: &'a [u8], count: u32) -> bool
    ensures { DecidesItems (item_text NAMED) (ascending_after first.now) rest.entry.body.now rest.entry.at count result }
{
    let mut c = rest;
    let mut previous = first;
    for _ in 0..count {
        let Ok((next, after)) = item_text::<NAMED>(c) else {
            return true;
        };
        if !(previous < next) {
            return false;
        }
        previous = next;
        c = after;
    }
    true
}

// Whether so many texts ascend.
pub fn ascend<const NAMED: bool>(rest: Cursor<'_>, count: u32) -> bool
    ensures { DecidesItems (item_text NAMED) ascending rest.entry.body.now rest.entry.at count result }
{
    if count == 0 {
        return true;
    }
    let Ok((first, after)) = item_text::<NAMED>(rest) else {
        return true;
    };
    ascend_after::<NAMED>(after, first, count - 1)
}
