// The enums of a file by their names.
ghost use Rattle.index_search.specs.Named.{IsNamed, EnrolsNamed};
ghost use Rattle.index_search.specs.Enums.{FindsEnum};

use crate::slots;
use crate::slots::{Table, Test};
use index::{Column, Records, RecordsMut};

// The enums that have a name.
#[derive(Drop)]
struct Named<'a> {
    name: &'a [u8],
}

impl Test for Named<'_> {
    ghost tells = { λ named records n r. IsNamed records.file.now records.work.now records.sizes.rows n named.name.now r };

    fn is(&self, records: Records<'_>, n: u32) -> bool {
        let offset = records.get(Column::EnumOffset, n) as usize;
        check_rules::members::name_at(records.file, offset) == self.name
    }
}

// The number of the enum with this name, if there is one.
pub fn find(records: Records<'_>, name: &[u8]) -> Option<u32>
    ensures { FindsEnum records.entry.file.now records.entry.work.now records.entry.sizes name.now result }
{
    let b = slots::name_home(records.key(), name, records.sizes.rows);
    slots::probe(
        records,
        Table::Enums,
        records.sizes.enums,
        b,
        &Named { name },
    )
    .ok()
}

// The same; where there is none, the name is entered with how many enums there are for its number.
pub fn enrol(records: &mut RecordsMut<'_>, name: &[u8]) -> Option<u32>
    ensures { EnrolsNamed records.old records.new name.now result }
{
    let b = slots::name_home(records.view().key(), name, records.sizes.rows);
    let count = records.sizes.enums;
    slots::enrol(records, Table::Enums, count, b, &Named { name })
}
