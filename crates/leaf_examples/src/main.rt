// Writes what the leaves of the encoder make of the literals of document 01 and of SMT-LIB's theories, one to a line. What is
// expected, in the file `stdout`, was worked out from these papers.
#![tactic(auto)]

mod codes;
mod lines;
mod numerals;
mod patterns;
mod texts;
mod vectors;

use std::io;

fn main(rt: HostRuntime) -> io::Result<()> {
    numerals::decimals(&rt)?;
    numerals::hexadecimals(&rt)?;
    codes::texts(&rt)?;
    codes::other_bytes(&rt)?;
    codes::last_code_point(&rt)?;
    codes::first_high(&rt)?;
    texts::quotes(&rt)?;
    texts::escapes(&rt)?;
    texts::code_points(&rt)?;
    texts::ids(&rt)?;
    texts::comments(&rt)?;
    patterns::patterns(&rt)?;
    vectors::published(&rt)?;
    vectors::addresses(&rt)?;
    vectors::signed(&rt)?;
    vectors::least(&rt)?;
    vectors::limits(&rt)?;
    vectors::sorts(&rt)
}
