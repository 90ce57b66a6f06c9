// Extension values.
ghost use Rattle.std.specs.Prelude.{◌++◌};
ghost use Rattle.script_spec.specs.Base.{bytes};
ghost use Rattle.script_spec.specs.Spelling.{bit_vec, prefix_length, ext_value};
ghost use Rattle.write_bytes.specs.Writers.{Writes};
ghost use Rattle.read_field.specs.Takes.{prefix_number};
ghost use Rattle.index_entry.specs.Terms.{value_of};

use index_entry::terms::Value;
use write_bitvec::spelling;
use write_bytes::writer::Writer;

// Writes an absent prefix of n bits.
fn put_absent(w: &mut Writer<'_>, n: u32)
    ensures { Writes w.old w.new (prefix_length n 255) }
{
    w.put(b"(as none (Option ");
    spelling::put_bitvec_sort(w, n);
    w.put(b"))")
}

// Writes a prefix in n bits, or an absent one, for which 255 stands too.
fn put_prefix(w: &mut Writer<'_>, n: u32, prefix: Option<u32>)
    ensures { Writes w.old w.new (prefix_length n (prefix_number prefix)) }
{
    match prefix {
        None => put_absent(w, n),
        Some(p) => {
            if p == 255 {
                return put_absent(w, n);
            }
            w.put(b"(some ");
            spelling::put_bitvec(w, n, u128::from(p));
            w.put_byte(b')')
        }
    }
}

// An address of so many bits, with its prefix in so many.
#[derive(Clone, Copy)]
struct Address {
    width: u32,
    value: u128,
    prefix_width: u32,
    prefix: Option<u32>,
}

// Writes an address with its prefix after what stands before them.
fn put_address(w: &mut Writer<'_>, head: &[u8], address: Address)
    ensures { Writes w.old w.new (head.now ++ (bit_vec address.width address.value ++ (bytes " " ++ (prefix_length address.prefix_width (prefix_number address.prefix) ++ bytes ")")))) }
{
    w.put(head);
    spelling::put_bitvec(w, address.width, address.value);
    w.put_byte(b' ');
    put_prefix(w, address.prefix_width, address.prefix);
    w.put_byte(b')')
}

// Writes 64 bits after what stands before them.
fn put_number(w: &mut Writer<'_>, head: &[u8], n: u64)
    ensures { Writes w.old w.new (head.now ++ (bit_vec 64 n ++ bytes ")")) }
{
    w.put(head);
    spelling::put_bitvec(w, 64, u128::from(n));
    w.put_byte(b')')
}

// Writes an extension value.
pub fn put_ext_value(w: &mut Writer<'_>, value: Value)
    ensures { Writes w.old w.new (ext_value (value_of value)) }
{
    match value {
        Value::V4(a, prefix) => put_address(
            w,
            b"(V4 ",
            Address {
                width: 32,
                value: u128::from(a),
                prefix_width: 5,
                prefix,
            },
        ),
        Value::V6(a, prefix) => put_address(
            w,
            b"(V6 ",
            Address {
                width: 128,
                value: a,
                prefix_width: 7,
                prefix,
            },
        ),
        Value::Decimal(n) => put_number(w, b"(Decimal ", n),
        Value::Datetime(n) => put_number(w, b"(Datetime ", n),
        Value::Duration(n) => put_number(w, b"(Duration ", n),
    }
}
