// The next record of a file, read after the records that the index has.
ghost use Rattle.check_file.specs.Reading.{ReadsNext};

use index::Records;
use read_record::{Earlier, Record};
use refusal::Refusal;

// The record at a place, after the records that are there.
pub fn read_next(records: Records<'_>, at: usize) -> Result<Record, Refusal>
    ensures { ReadsNext records.entry at result }
{
    let sizes = records.sizes;
    let earlier = Earlier {
        file: records.file,
        offsets: records.type_offsets(sizes.types),
        types: sizes.types,
        funs: sizes.funs,
        terms: sizes.terms,
    };
    read_record::next_record(earlier, at)
}
