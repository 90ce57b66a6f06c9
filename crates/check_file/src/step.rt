// A step of the loop: the next record is read, and entered by its kind.
ghost use Rattle.check_file.specs.Stepping.{HasMark, StepsOver, Steps};

use check_enter::enums::enter_enum;
use check_enter::inputs::enter_input;
use check_enter::terms::enter_term;
use check_enter::{enter_fun, enter_type};
use index::RecordsMut;
use read_record::mark::Kind;
use refusal::Refusal;

// Enters a record of a kind that was read from `at` on.
fn enter_next(records: &mut RecordsMut<'_>, at: usize, kind: Kind) -> Result<(), Refusal>
    ensures { StepsOver (HasMark kind) records.old records.new at result }
{
    let offset = u32::try_from(at).unwrap_or(0);
    match kind {
        Kind::TB | Kind::TS | Kind::TV | Kind::TO | Kind::TC | Kind::TE | Kind::TX | Kind::TR =>
            enter_type(records, offset),
        Kind::EN => enter_enum(records, offset),
        Kind::UF => enter_fun(records, offset),
        Kind::XV
        | Kind::XB
        | Kind::XN
        | Kind::XS
        | Kind::XE
        | Kind::XX
        | Kind::X0
        | Kind::X1
        | Kind::XC
        | Kind::XR
        | Kind::XA => enter_term(records, offset, kind),
        Kind::IN => enter_input(records, offset),
    }
}

// Reads the record at a place and enters it; the place after it.
pub fn step(records: &mut RecordsMut<'_>, at: usize) -> Result<usize, Refusal>
    ensures { Steps records.old records.new at result }
{
    let record = crate::next::read_next(records.view(), at)?;
    enter_next(records, at, record.kind)?;
    Ok(record.end)
}
