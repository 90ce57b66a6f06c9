// Literals and sorts of bit vectors.
use crate::lines::line;
use refusal::Refusal;
use std::io;
use write_bitvec::{BitVec, reading, spelling};

// A bit vector's literal, or document 01's number for a refusal.
fn vector(rt: &impl Print, made: Result<BitVec, Refusal>) -> io::Result<()> {
    match made {
        Ok(vector) => line(rt, |w| spelling::put_bitvec(w, vector.width, vector.value)),
        Err(refusal) => println!(rt; "refused {}", refusal.number()),
    }
}

// SMT-LIB, logic QF_BV: `(_ bvX n)` is the bit vector of n bits with value X, its example being bv13 in 32 bits.
pub fn published(rt: &impl Print) -> io::Result<()> {
    vector(rt, BitVec::new(32, 13))
}

// Document 01, ipaddr.rs: 192.168.1.1 with prefix 24 has `(_ bv3232235777 32)` and `(_ bv24 5)`.
// ::1 and 2001:db8:: (the documentation prefix of RFC 3849) are 1 and 0x20010db8 followed by 96 zero bits.
pub fn addresses(rt: &impl Print) -> io::Result<()> {
    let v4 = reading::high_first(b"\xc0\xa8\x01\x01");
    vector(rt, BitVec::new(32, v4))?;
    vector(rt, BitVec::new(5, 24))?;
    let loopback = reading::high_first(b"\0\0\0\0\0\0\0\0\0\0\0\0\0\0\0\x01");
    vector(rt, BitVec::new(128, loopback))?;
    let v6 = reading::high_first(b"\x20\x01\x0d\xb8\0\0\0\0\0\0\0\0\0\0\0\0");
    vector(rt, BitVec::new(128, v6))
}

// Document 01, bitvec.rs: signed values are two's complement, and Decimal -1 is `(_ bv18446744073709551615 64)`.
// SMT-LIB, theory FixedSizeBitVectors: `bvneg` of s is 2^m less the number of s, so -1, -128 and -129 of 8 bits are 255, 128
// and, cut to 8 bits, 127; and -1 of 128 bits is 2^128 less 1.
pub fn signed(rt: &impl Print) -> io::Result<()> {
    let decimal = reading::low_first(b"\xff\xff\xff\xff\xff\xff\xff\xff");
    vector(rt, BitVec::new(64, decimal))?;
    vector(rt, BitVec::of_int(64, -1))?;
    vector(rt, BitVec::of_int(8, -1))?;
    vector(rt, BitVec::of_int(8, -128))?;
    vector(rt, BitVec::of_int(8, -129))?;
    vector(rt, BitVec::of_int(8, 127))?;
    vector(rt, BitVec::of_int(128, -1))
}

// Document 01, encoder.rs: `Bvnego` compares with 2^(n-1).
pub fn least(rt: &impl Print) -> io::Result<()> {
    vector(rt, BitVec::int_min(1))?;
    vector(rt, BitVec::int_min(8))?;
    vector(rt, BitVec::int_min(64))?;
    vector(rt, BitVec::int_min(65))?;
    vector(rt, BitVec::int_min(128))
}

// Document 01, `XN`: a width is 1 to 128 and a value below 2^width, or refusal 7.
pub fn limits(rt: &impl Print) -> io::Result<()> {
    vector(rt, BitVec::new(0, 0))?;
    vector(rt, BitVec::new(129, 0))?;
    vector(rt, BitVec::new(8, 255))?;
    vector(rt, BitVec::new(8, 256))?;
    vector(rt, BitVec::new(65, 0x1_0000_0000_0000_0000))?;
    vector(rt, BitVec::new(65, 0x2_0000_0000_0000_0000))?;
    vector(rt, BitVec::new(128, u128::MAX))
}

fn sort(rt: &impl Print, width: u32) -> io::Result<()> {
    line(rt, |w| spelling::put_bitvec_sort(w, width))
}

// Document 01, ipaddr.rs: prefixes have the sorts `(_ BitVec 5)` and `(_ BitVec 7)`, and encoder.rs has V6 addresses of 128 bits.
pub fn sorts(rt: &impl Print) -> io::Result<()> {
    sort(rt, 5)?;
    sort(rt, 7)?;
    sort(rt, 128)
}
