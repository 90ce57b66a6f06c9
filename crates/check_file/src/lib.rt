// Check: a file's records one after the other, with refusals 1 to 13 and 21, and the index that this fills.
#![tactic(auto)]

pub mod next;
pub mod step;

ghost use Rattle.std.specs.Prelude.{[]};
ghost use Rattle.check_file.specs.Promise.{Fills, Checks};
ghost use Rattle.check_file.specs.Beginning.{Begins};
ghost use Rattle.check_file.specs.Stepping.{Before, EntersAll};
ghost use Rattle.check_file.specs.Clearing.{Refusing};

use index::{Column, RecordsMut, Sizes};
use refusal::{Refusal, Refused};
use std::hash::{DefaultHasher, Hasher};

// As many bytes as a file may have.
const MOST_BYTES: usize = 1048576;

// Refuses: clears the memory.
fn refuse(work: &mut [u32], refusal: Refusal, place: usize) -> Refused
    ensures { Refusing work.old work.new refusal place result }
{
    work.fill(0);
    Refused {
        refusal,
        place,
        position: 0,
    }
}

// The key of a file: what SipHash-1-3 makes of its bytes, with its lowest bit set, so that it is not 0.
fn key_of_file(file: &[u8]) -> u64 {
    let mut hasher = DefaultHasher::new();
    hasher.write(file);
    hasher.finish() | 1
}

// Makes ready for the first record: the slots of the hash table are empty, and the file's key is stored.
fn begin(records: &mut RecordsMut<'_>)
    ensures { Begins records.old records.new }
{
    records.clear_column(Column::Hash);
    let key = key_of_file(records.file);
    records.set(Column::Key, 0, (key % 4294967296) as u32);
    records.set(Column::Key, 1, (key >> 32) as u32);
}

// Enters the records of a file one after the other, up to the first that is refused.
fn enter_all(records: &mut RecordsMut<'_>) -> Result<(), Refusal>
    requires { Before [] records.old 0 }
    ensures { EntersAll records.old records.new result }
{
    let mut at = 0;
    while at < records.file.len() {
        at = step::step(records, at)?;
    }
    Ok(())
}

// Enters the records of a file; the memory is their index, or all zero where one is refused. Only the slots of the hash table and the file's key are
// read before a record writes them, and so they are made ready first.
pub fn fill(file: &[u8], work: &mut [u32]) -> Result<Sizes, Refused>
    ensures { Fills file.now work.old work.new result }
{
    if MOST_BYTES < file.len() {
        return Err(refuse(work, Refusal::FileTooLong, 0));
    }
    if work.len() < 2 * file.len() {
        return Err(refuse(work, Refusal::MemoryTooSmall, 0));
    }
    let sizes = Sizes {
        rows: index::capacity(file.len()),
        types: 0,
        funs: 0,
        terms: 0,
        enums: 0,
        inputs: 0,
    };
    let mut records = RecordsMut { file, work, sizes };
    begin(&mut records);
    match enter_all(&mut records) {
        Ok(()) => Ok(records.sizes),
        Err(refusal) => {
            let place = records.sizes.together() as usize;
            Err(refuse(&mut *records.work, refusal, place))
        }
    }
}

// Checks a file; the memory is all zero afterwards.
pub fn check(file: &[u8], work: &mut [u32]) -> Result<(), Refused>
    ensures { Checks file.now work.old work.new result }
{
    fill(file, work)?;
    work.fill(0);
    Ok(())
}
