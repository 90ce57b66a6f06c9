// The program `termscript` as a function: a term file from an input, its script or its refusal to an output.
#![tactic(auto)]

ghost use Rattle.std.specs.Prelude.{IfSome, OnOk};
ghost use Rattle.std.specs.Io.KnownBytes.{Appends};
ghost use Rattle.script_spec.specs.Walk.{termscript};

use std::io;
use std::io::{Input, Read, Write};

// Writes what `termscript` writes for a file.
fn answer<W: Write>(out: &mut W, file: &[u8]) -> io::Result<()>
    ensures { OnOk result (Appends (W.contents out.old) (W.contents out.new) (termscript file.now)) }
{
    let mut work = [0u32; 16384];
    let mut script = [0u8; 65536];
    let n = encoder::print::print(file, &mut work, &mut script);
    out.write_all(&script[..n])
}

// Reads a file and writes what `termscript` writes for it. It reads at most one byte more than the program takes, so that a longer input
// is seen to be longer. Where a read or a write fails, it answers the error.
pub fn respond<R: Read, W: Write>(input: &mut R, out: &mut W) -> io::Result<()>
    ensures { OnOk result (IfSome (R.remaining input.old) (λ file. Appends (W.contents out.old) (W.contents out.new) (termscript file))) }
{
    let mut file = [0u8; 8193];
    let n = read_input::fill(input, &mut file)?;
    answer(out, &file[..n])
}

// The program itself: from standard input to standard output.
pub fn run(rt: &(impl Input + Print)) -> io::Result<()> {
    respond(&mut rt.reader(), &mut io::writer(rt))
}
