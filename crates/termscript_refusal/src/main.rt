// `termscript` once more, run on a file that is longer than the program takes.
#![tactic(auto)]

use std::io;

fn main(rt: HostRuntime) -> io::Result<()> {
    termscript_run::run(&rt)
}
