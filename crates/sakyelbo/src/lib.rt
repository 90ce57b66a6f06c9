// What other languages call: check, encode and the writers of commands, with the answers as numbers. Each function answers 0, or a
// refusal's number; where the refusal is stands behind `at`.
#![tactic(auto)]

mod answers;
pub mod commands;

ghost use Rattle.sakyelbo.specs.Promise.{ChecksFile, EncodesFile};

// Where a refusal is: the place of its record, and the position of a code point in its text; 0 where it is of none.
#[repr(C)]
#[derive(Clone, Copy)]
pub struct Where {
    pub place: usize,
    pub position: usize,
}

// Checks a file; the memory is all zero afterwards.
pub fn sakyelbo_check(file: &[u8], work: &mut [u32], at: &mut Where) -> u32
    ensures { ChecksFile file.now work.old work.new at.new result }
{
    answers::of_check(check_file::check(file, work), at)
}

// Encodes a file: the script and zeros past it, and its length behind `size`; or zeros alone. The memory is all zero afterwards.
pub fn sakyelbo_encode(
    file: &[u8],
    work: &mut [u32],
    script: &mut [u8],
    size: &mut usize,
    at: &mut Where,
) -> u32
    ensures { EncodesFile file.now work.old script.old work.new script.new size.new at.new result }
{
    answers::of_encode(encoder::encode(file, work, script), size, at)
}
