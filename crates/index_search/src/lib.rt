// Equal records and enums of a name, found by a hash table in the index's last column.
#![tactic(auto)]

pub mod enums;
pub mod hash;
pub mod search;
pub mod sets;
pub mod slots;

ghost use Rattle.std.specs.Prelude.{ℕ, ◌<◌, get_or};

// Says that the bytes of a file are below 256, and does nothing: a slice within a struct does not tell it of itself.
pub fn octets(file: &[u8])
    ensures { (i : ℕ) → get_or file.now i 0 < 256 }
{}
