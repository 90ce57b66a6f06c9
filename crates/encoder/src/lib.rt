// Encode: the script of a term file, or its refusal.
#![tactic(auto)]

pub mod assertions;
pub mod inputs;
pub mod print;
pub mod start;

ghost use Rattle.encoder.specs.Promise.{Encodes};
ghost use Rattle.encoder.specs.Ending.{RefusedAt, WritesRecords, WritesScript, Written};

use index::{Column, Records, RecordsMut, Sizes};
use refusal::{Refusal, Refused};
use walk_names::walk::{Stopped, Walk};
use write_bytes::writer::Writer;

// The refusal of a walk, at the first record equal to the refused term, with the position.
fn refused_at(records: Records<'_>, stopped: Stopped) -> Refused
    ensures { RefusedAt records.entry stopped result }
{
    let first = records.get(Column::TermFirst, stopped.term);
    Refused {
        refusal: stopped.refusal,
        place: records.get(Column::TermPlace, first) as usize,
        position: stopped.position,
    }
}

// Encodes the inputs and writes their assertions, as far as the script has room.
fn write_records(walk: &mut Walk) -> Result<(), Refused>
    ensures { WritesRecords walk.old walk.new result }
{
    match inputs::encode_inputs(walk) {
        Err(stopped) => Err(refused_at(walk.records.view(), stopped)),
        Ok(()) => {
            assertions::put_assertions(walk.records.view(), walk.script);
            Ok(())
        }
    }
}

// Writes the script of an accepted file, whose walk is at its start, and answers its length; or refuses it.
fn write_script(walk: &mut Walk) -> Result<usize, Refused>
    ensures { WritesScript walk.old walk.new result }
{
    walk_queries::lists::make_lists(walk.records);
    start::put_start(walk.script);
    write_records(walk)?;
    if walk.script.out.len() < walk.script.at {
        return Err(Refused {
            refusal: Refusal::NoRoom,
            place: 0,
            position: 0,
        });
    }
    Ok(walk.script.at)
}

// Writes the script of an accepted file, whose index of these sizes is in the memory, into its buffer, and answers its length; or refuses it.
fn written(file: &[u8], work: &mut [u32], sizes: Sizes, script: &mut [u8]) -> Result<usize, Refused>
    ensures { Written file.now work.old sizes script.old script.new result }
{
    let mut walk = Walk {
        records: &mut RecordsMut { file, work, sizes },
        script: &mut Writer::new(script),
        types: 0,
        funs: 0,
        terms: 0,
    };
    write_script(&mut walk)
}

// Encodes a term file: the script and zeros past it, or a refusal and zeros alone. The working memory is all zero afterwards.
pub fn encode(file: &[u8], work: &mut [u32], script: &mut [u8]) -> Result<usize, Refused>
    ensures { Encodes file.now work.old script.old work.new script.new result }
{
    match check_file::fill(file, work) {
        Err(refused) => {
            write_bytes::clear(script, 0);
            Err(refused)
        }
        Ok(sizes) => {
            let answer = written(file, work, sizes, script);
            write_bytes::clear_words(work);
            write_bytes::clear(script, answer.unwrap_or(0));
            answer
        }
    }
}
