// Writes the script of the term file on standard input, or its refusal. It is run on document 01's whole file.
#![tactic(auto)]

use std::io;

fn main(rt: HostRuntime) -> io::Result<()> {
    termscript_run::run(&rt)
}
