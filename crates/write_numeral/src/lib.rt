// Numbers written in decimal and hexadecimal, without leading zeros.
#![tactic(auto)]

ghost use Rattle.std.specs.Prelude.{◌≡◌, ◌%◌, ◌≤◌};
ghost use Rattle.script_spec.specs.Text.{digit, decimal, hex};
ghost use Rattle.write_bytes.specs.Writers.{Writes};
ghost use Rattle.write_numeral.specs.Base.{IsBase};
ghost use Rattle.write_numeral.specs.Last.{last_digits};

use write_bytes::writer::Writer;

// The character of n's last digit in a base of at most sixteen: 48 is that of 0, and 97, which is 87 + 10, that of a.
fn last_digit(n: u64, base: u64) -> u8
    requires { IsBase base }
    ensures { result ≡ digit (n % base) }
{
    let d = (n % base) as u8;
    if d < 10 {
        return 48 + d;
    }
    87 + d
}

// The character of n's last hexadecimal digit.
pub fn hex_digit(n: u32) -> u8
    ensures { result ≡ digit (n % 16) }
{
    last_digit(u64::from(n), 16)
}

// The character of n's ones.
fn ones(n: u64) -> u8
    ensures { result ≡ digit (n % 10) }
{
    last_digit(n, 10)
}

// Writes the last five digits of n in decimal.
#[inline(always)]
fn put_five(w: &mut Writer<'_>, n: u64)
    ensures { Writes w.old w.new (last_digits 5 10 n) }
{
    w.put(&[
        ones(n / 10 / 10 / 10 / 10),
        ones(n / 10 / 10 / 10),
        ones(n / 10 / 10),
        ones(n / 10),
        ones(n),
    ])
}

// Writes n in decimal. Numbers of up to five digits, which most are, are divided by constants alone, and their digits are stored
// together.
#[cycle(put_decimal_put_long)]
pub fn put_decimal(w: &mut Writer<'_>, n: u64)
    ensures { Writes w.old w.new (decimal n) }
{
    if n < 10 {
        return w.put_byte(ones(n));
    }
    if n < 100 {
        return w.put(&[ones(n / 10), ones(n)]);
    }
    if n < 1000 {
        return w.put(&[ones(n / 10 / 10), ones(n / 10), ones(n)]);
    }
    if n < 10000 {
        return w.put(&[
            ones(n / 10 / 10 / 10),
            ones(n / 10 / 10),
            ones(n / 10),
            ones(n),
        ]);
    }
    if n < 100000 {
        return put_five(w, n);
    }
    put_long(w, n)
}

// Writes a number of more than five digits in decimal, the last five after the others. It is rare, and out of line it keeps
// `put_decimal` short.
#[cycle(put_decimal_put_long)]
#[inline(never)]
fn put_long(w: &mut Writer<'_>, n: u64)
    requires { 100000 ≤ n }
    ensures { Writes w.old w.new (decimal n) }
{
    put_decimal(w, n / 100000);
    put_five(w, n)
}

// Writes the last ten digits of n in decimal.
pub fn put_last_ten(w: &mut Writer<'_>, n: u64)
    ensures { Writes w.old w.new (last_digits 10 10 n) }
{
    put_five(w, n / 100000);
    put_five(w, n)
}

// Writes n in lower-case hexadecimal.
pub fn put_hex(w: &mut Writer<'_>, n: u64)
    ensures { Writes w.old w.new (hex n) }
{
    if n < 16 {
        return w.put_byte(last_digit(n, 16));
    }
    put_hex(w, n / 16);
    w.put_byte(last_digit(n, 16))
}
