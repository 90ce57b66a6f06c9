// Lists: a count and its items.
ghost use Rattle.read_field.specs.Reads.{repeat};
ghost use Rattle.read_field.specs.Takes.{Takes, moved_of};
ghost use Rattle.read_field.specs.Items.{item_reader, list_reader};

use crate::Cursor;
use refusal::Refusal;

// What the items of a list are.
#[derive(Clone, Copy)]
pub enum Item {
    Text,
    // The number of one of so many earlier records.
    Reference(u32),
    // A text and such a number.
    Named(u32),
    // A pattern's element.
    Element,
}

// One item.
fn next_item<'a>(c: Cursor<'a>, item: Item) -> Result<Cursor<'a>, Refusal>
    ensures { Takes (item_reader item) c.entry (moved_of result) }
{
    match item {
        Item::Text => Ok(c.text()?.1),
        Item::Reference(n) => Ok(c.reference(n)?.1),
        Item::Named(n) => Ok(c.text()?.1.reference(n)?.1),
        Item::Element => Ok(c.element()?.1),
    }
}

// So many items, the first bad one deciding.
pub fn items<'a>(c: Cursor<'a>, item: Item, count: u32) -> Result<Cursor<'a>, Refusal>
    ensures { Takes (repeat count (item_reader item)) c.entry (moved_of result) }
{
    let mut rest = c;
    for _ in 0..count {
        rest = next_item(rest, item)?;
    }
    Ok(rest)
}

// A count and its items.
pub fn list<'a>(c: Cursor<'a>, item: Item) -> Result<Cursor<'a>, Refusal>
    ensures { Takes (list_reader item) c.entry (moved_of result) }
{
    let (n, rest) = c.u32_le()?;
    items(rest, item, n)
}
