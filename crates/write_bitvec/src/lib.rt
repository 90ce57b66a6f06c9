// Bit vectors of 1 to 128 bits (bitvec.rs).
#![tactic(auto)]

pub mod reading;
pub mod spelling;

ghost use Rattle.std.specs.Prelude.{◌≡◌, ◌%◌, ◌^◌, ltb};
ghost use Rattle.write_bitvec.specs.Value.{twos_complement};
ghost use Rattle.write_bitvec.specs.Vector.{said, new_vector, of_int, int_min};

use refusal::Refusal;

// A bit vector by its width and its value.
#[derive(Clone, Copy)]
pub struct BitVec {
    pub width: u32,
    pub value: u128,
}

// 2^k, or 0 where that is not below 2^128.
pub fn power(k: u32) -> u128
    ensures { result ≡ 2 ^ k % 2 ^ 128 }
{
    if k < 128 { 1 << k } else { 0 }
}

// Whether a value fits into `width` bits.
pub fn fits(width: u32, value: u128) -> bool
    ensures { result ≡ ltb value (2 ^ width) }
{
    if width < 128 {
        return value < power(width);
    }
    true
}

// A value's last `width` bits.
pub fn wrap(width: u32, value: u128) -> u128
    ensures { result ≡ value % 2 ^ width }
{
    if width < 128 {
        return value % power(width);
    }
    value
}

// A signed number in 128 bits.
fn signed(v: i64) -> u128
    ensures { result ≡ twos_complement 128 v }
{
    i128::from(v).cast_unsigned()
}

impl BitVec {
    // The bit vector of a value that fits its width.
    pub fn new(width: u32, value: u128) -> Result<BitVec, Refusal>
        ensures { said result ≡ new_vector width value }
    {
        if !read_field::is_width(width) || !fits(width, value) {
            return Err(Refusal::OutOfRange);
        }
        Ok(BitVec { width, value })
    }

    // The signed number in `width` bits; it wraps where it does not fit.
    pub fn of_int(width: u32, v: i64) -> Result<BitVec, Refusal>
        ensures { said result ≡ of_int width v }
    {
        if !read_field::is_width(width) {
            return Err(Refusal::OutOfRange);
        }
        let value = wrap(width, signed(v));
        Ok(BitVec { width, value })
    }

    // The least signed number of `width` bits.
    pub fn int_min(width: u32) -> Result<BitVec, Refusal>
        ensures { said result ≡ int_min width }
    {
        if !read_field::is_width(width) {
            return Err(Refusal::OutOfRange);
        }
        let value = power(width - 1);
        Ok(BitVec { width, value })
    }
}
