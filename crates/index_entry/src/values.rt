// Extension values: a code, and then an address with its prefix or 64 bits.
ghost use Rattle.std.specs.Prelude.{◌≡◌, ◌+◌, ◌*◌, ◌^◌, get_or};
ghost use Rattle.index.specs.Lists.{number_at};
ghost use Rattle.std.proofs.Math.Option.{some};
ghost use Rattle.script_spec.specs.Base.{bytes};
ghost use Rattle.read_field.specs.Takes.{prefix_number, IsPrefix};
ghost use Rattle.index_entry.specs.Terms.{IsTerm, TermFits};

use crate::records::number_at;
use crate::terms::{TermEntry, Value};
use index_compare::compare::byte_at;

// What stands for no prefix.
const NO_PREFIX: u8 = 255;

// The number of the four bytes after the code, high byte first.
fn high_four(body: &[u8]) -> u32
    ensures { result ≡ ((get_or body.now 1 0 * 256 + get_or body.now 2 0) * 256 + get_or body.now 3 0) * 256 + get_or body.now 4 0 }
{
    u32::from_be_bytes([
        byte_at(body, 1),
        byte_at(body, 2),
        byte_at(body, 3),
        byte_at(body, 4),
    ])
}

// The number of the eight bytes after the code, low byte first.
fn low_eight(body: &[u8]) -> u64
    ensures { result ≡ number_at body.now 1 + number_at body.now 5 * 2 ^ 32 }
{
    let low = u64::from(number_at(body, 1));
    let high = u64::from(number_at(body, 5));
    low + high * 0x1_0000_0000
}

// The prefix at a place, if there is one.
fn prefix_at(body: &[u8], at: usize) -> Option<u32>
    ensures is { prefix_number result ≡ get_or body.now at 0 }
    ensures given { IsPrefix result }
{
    match byte_at(body, at) {
        NO_PREFIX => None,
        prefix => Some(u32::from(prefix)),
    }
}

// An extension value by its code.
pub fn ext_lit(body: &[u8]) -> TermEntry<'_>
    ensures is { IsTerm (some (bytes "XX")) body.now result }
    ensures fits { TermFits result }
{
    match byte_at(body, 0) {
        0 => TermEntry::ExtLit(Value::V4(u64::from(high_four(body)), prefix_at(body, 5))),
        1 => {
            let address = write_bitvec::reading::high_first(read_field::part_of(body, 1, 16));
            TermEntry::ExtLit(Value::V6(address, prefix_at(body, 17)))
        }
        2 => TermEntry::ExtLit(Value::Decimal(low_eight(body))),
        3 => TermEntry::ExtLit(Value::Datetime(low_eight(body))),
        4 => TermEntry::ExtLit(Value::Duration(low_eight(body))),
        _ => TermEntry::Unreadable,
    }
}
