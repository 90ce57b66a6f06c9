// Bytes written one after another into a lent buffer, cut at a limit; and memory cleared.
#![tactic(auto)]

ghost use Rattle.std.specs.Prelude.{◌≡◌, length, replicate};
ghost use Rattle.write_bytes.specs.Writing.{cleared};

pub mod writer;

// Zeroes out from a place on.
pub fn clear(out: &mut [u8], from: usize)
    ensures { out.new ≡ cleared out.old from }
{
    let start = from.min(out.len());
    out[start..].fill(0);
}

// Zeroes working memory.
pub fn clear_words(work: &mut [u32])
    ensures { work.new ≡ replicate (length work.old) 0 }
{
    work.fill(0);
}
