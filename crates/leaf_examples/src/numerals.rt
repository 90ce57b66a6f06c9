// Decimal and hexadecimal numerals.
use crate::lines::line;
use std::io;

fn decimal(rt: &impl Print, n: u64) -> io::Result<()> {
    line(rt, |w| write_numeral::put_decimal(w, n))
}

fn hex(rt: &impl Print, n: u64) -> io::Result<()> {
    line(rt, |w| write_numeral::put_hex(w, n))
}

// SMT-LIB 2.6, section 3.1: a numeral is 0 or begins with another digit.
// SMT-LIB, theory of Unicode strings: `str.from_int` of n is the shortest decimal numeral of n.
pub fn decimals(rt: &impl Print) -> io::Result<()> {
    decimal(rt, 0)?;
    decimal(rt, 9)?;
    decimal(rt, 10)?;
    decimal(rt, 18446744073709551615)
}

// Document 01: a code point in an escape is in lower-case hexadecimal without leading zeros, the backslash being 5c and 196607
// being 2ffff. The last number has each of the sixteen digits, from the highest down.
pub fn hexadecimals(rt: &impl Print) -> io::Result<()> {
    hex(rt, 0)?;
    hex(rt, 10)?;
    hex(rt, 92)?;
    hex(rt, 196607)?;
    hex(rt, 18364758544493064720)
}
