// Where a text stands in a list of a body: by a scan, or by halves where the index has a list of the places.
ghost use Rattle.std.specs.Prelude.{◌≡◌, ◌<◌, ◌+◌, drop};
ghost use Rattle.script_spec.specs.Base.{before};
ghost use Rattle.index.specs.Lists.{first_text};
ghost use Rattle.walk_queries.specs.Found.{FindsText, FindsListed, Finds, Halves};

use crate::lists::rows_of;
use index::{Column, Records};
use index_entry::lists::{self, Texts};

// Where a text stands among texts of a body, by a scan.
fn find_text(mut among: Texts<'_>, name: &[u8]) -> Option<u32>
    ensures { FindsText among.entry name.now result }
{
    let i = among.position(|text| text == name)?;
    u32::try_from(i).ok()
}

// Whether a text stands strictly before the one at a place of the body.
fn stands_before(name: &[u8], body: &[u8], at: usize) -> bool
    ensures { result ≡ before name.now (first_text (drop at body.now)) }
{
    name < lists::text_at(body, at)
}

// The last of so many rows whose text does not stand behind this one, or the first row.
fn find_row(records: Records<'_>, base: u32, rows: u32, body: &[u8], name: &[u8]) -> u32
    requires { 0 < rows }
    ensures { Halves body.now records.entry.work.now records.entry.sizes.rows base rows name.now result (result + 1) }
{
    let mut low = 0;
    let mut high = rows;
    while 1 < high - low {
        let middle = low + (high - low) / 2;
        let row = base as usize + middle as usize;
        let at = records.get_row(Column::ListRow, row);
        if stands_before(name, body, at as usize) {
            high = middle;
        } else {
            low = middle;
        }
    }
    low
}

// Where a text stands among texts that have a list whose first row is `base`.
fn find_listed(records: Records<'_>, base: u32, among: Texts<'_>, name: &[u8]) -> Option<u32>
    ensures { FindsListed records.entry.work.now records.entry.sizes.rows base among.entry name.now result }
{
    if among.left < 2 {
        return find_text(among, name);
    }
    let row = find_row(records, base, rows_of(among.left), among.body, name);
    let at = records.get_row(Column::ListRow, base as usize + row as usize);
    let first = row * 2;
    let pair = Texts {
        from: at as usize,
        left: (among.left - first).min(2),
        ..among
    };
    let i = find_text(pair, name)?;
    Some(first + i)
}

// Where a text stands among texts of a body, by the entry that the index has for their list: one more than its first row, or 0.
pub fn find(records: Records<'_>, list: u32, among: Texts<'_>, name: &[u8]) -> Option<u32>
    ensures { Finds records.entry.work.now records.entry.sizes.rows list among.entry name.now result }
{
    match list.checked_sub(1) {
        None => find_text(among, name),
        Some(base) => find_listed(records, base, among, name),
    }
}
