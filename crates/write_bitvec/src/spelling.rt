// How bit vectors and their sorts are spelled (SMT-LIB's theory of bit vectors).
ghost use Rattle.std.specs.Prelude.{◌≡◌, ◌-◌, ◌/◌, ◌%◌, ◌^◌};
ghost use Rattle.script_spec.specs.Spelling.{bit_vec, bit_vec_sort};
ghost use Rattle.script_spec.specs.Text.{decimal};
ghost use Rattle.write_bytes.specs.Writers.{Writes};

use write_bytes::writer::Writer;

// Ten decimal digits are 2^10 by 5^10.
const TWOS: u128 = 1024;

// 5^10.
const FIVES: u64 = 9_765_625;

// Limbs of 40 bits, so that a remainder by 5^10 and the limb after it make a number of 64.
const LIMB: u128 = 1_099_511_627_776;

// A number without its last ten digits, and these. It is divided by 2^10, and then by 5^10, limb after limb: the compiler would make a
// call of one division of 128 bits.
fn by_ten_digits(n: u128) -> (u128, u64)
    ensures rest { result.0 ≡ n / 10000000000 }
    ensures last { result.1 ≡ n % 10000000000 }
{
    let m = n / TWOS;
    let upper = m / LIMB;
    let a = (upper / LIMB) as u64;
    let b = a % FIVES * LIMB as u64 + (upper % LIMB) as u64;
    let c = b % FIVES * LIMB as u64 + (m % LIMB) as u64;
    let rest = (u128::from(a / FIVES) * LIMB + u128::from(b / FIVES)) * LIMB
        + u128::from(c / FIVES);
    (rest, c % FIVES * TWOS as u64 + (n % TWOS) as u64)
}

// Writes a number without leading zeros; of one above 64 bits the last ten digits after the others.
pub fn put_decimal128(w: &mut Writer<'_>, n: u128)
    ensures { Writes w.old w.new (decimal n) }
{
    if let Ok(small) = u64::try_from(n) {
        return write_numeral::put_decimal(w, small);
    }
    let (rest, last) = by_ten_digits(n);
    put_decimal128(w, rest);
    write_numeral::put_last_ten(w, last)
}

// Writes a bit vector by its width and value.
pub fn put_bitvec(w: &mut Writer<'_>, width: u32, value: u128)
    ensures { Writes w.old w.new (bit_vec width value) }
{
    w.put(b"(_ bv");
    put_decimal128(w, value);
    w.put_byte(b' ');
    write_numeral::put_decimal(w, u64::from(width));
    w.put_byte(b')')
}

// Writes the sort of bit vectors of a width.
pub fn put_bitvec_sort(w: &mut Writer<'_>, width: u32)
    ensures { Writes w.old w.new (bit_vec_sort width) }
{
    w.put(b"(_ BitVec ");
    write_numeral::put_decimal(w, u64::from(width));
    w.put_byte(b')')
}

// Writes the least signed number of a width; one of more than 128 bits is cut to 128.
pub fn put_int_min(w: &mut Writer<'_>, width: u32)
    ensures { Writes w.old w.new (bit_vec width (2 ^ (width - 1) % 2 ^ 128)) }
{
    put_bitvec(w, width, crate::power(width.saturating_sub(1)))
}
