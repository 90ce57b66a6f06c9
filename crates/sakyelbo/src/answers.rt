// Answers as numbers, and where a refusal is.
ghost use Rattle.std.specs.Prelude.{◌≡◌};
ghost use Rattle.write_bytes.specs.Writing.{answer};
ghost use Rattle.encoder.specs.Promise.{encoded_as};
ghost use Rattle.check_file.specs.Promise.{checked_as};
ghost use Rattle.sakyelbo.specs.Answers.{Says, SaysSize, where_of};

use crate::Where;
use refusal::{Refusal, Refused};

// Check's answer: its number, and where its refusal is behind `at`.
pub fn of_check(checked: Result<(), Refused>, at: &mut Where) -> u32
    ensures { Says (checked_as checked) at.new result }
{
    match checked {
        Ok(()) => {
            *at = Where {
                place: 0,
                position: 0,
            };
            0
        }
        Err(refused) => {
            *at = Where {
                place: refused.place,
                position: refused.position,
            };
            refused.refusal.number()
        }
    }
}

// Encode's answer: its number, the script's length behind `size`, and where its refusal is behind `at`.
pub fn of_encode(encoded: Result<usize, Refused>, size: &mut usize, at: &mut Where) -> u32
    ensures size { SaysSize (encoded_as encoded) size.new result }
    ensures at { at.new ≡ where_of (encoded_as encoded) }
{
    match encoded {
        Ok(n) => {
            *size = n;
            of_check(Ok(()), at)
        }
        Err(refused) => {
            *size = 0;
            of_check(Err(refused), at)
        }
    }
}

// The answer of a call that writes a command: its number, and the length behind `size`.
pub fn of_command(written: Result<usize, Refusal>, size: &mut usize) -> u32
    ensures { SaysSize (answer written) size.new result }
{
    match written {
        Ok(n) => {
            *size = n;
            0
        }
        Err(refusal) => {
            *size = 0;
            refusal.number()
        }
    }
}
