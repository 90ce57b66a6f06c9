// Numbers of up to 16 bytes, read low byte first or high byte first.
ghost use Rattle.std.specs.Prelude.{◌≡◌, take};
ghost use Rattle.script_spec.specs.Fields.{low, high};

// The number of the first 16 bytes, or of all where there are fewer, low byte first.
pub fn low_first(s: &[u8]) -> u128
    ensures { result ≡ low (take 16 s.now) }
{
    if let Some(first) = s.first_chunk() {
        return u128::from_le_bytes(*first);
    }
    let mut v = 0;
    for byte in s.iter().rev() {
        v = v * 256 + u128::from(*byte);
    }
    v
}

// The number of the first 16 bytes, or of all where there are fewer, high byte first.
pub fn high_first(s: &[u8]) -> u128
    ensures { result ≡ high 0 (take 16 s.now) }
{
    let mut v = 0;
    for byte in &s[..s.len().min(16)] {
        v = v * 256 + u128::from(*byte);
    }
    v
}
