// Encodes each term file that an argument names as `termscript` does, and compares with the file that the next argument names, whose
// comments are cut and have their control characters replaced first: a line for each that differs, and how many were compared.
#![tactic(auto)]

ghost use Rattle.std.specs.Prelude.{◌<◌};
ghost use Rattle.std.specs.Io.{ReadsAtMost};

use std::env::{Env, FillError};
use std::fs::Files;
use std::{fs, io};
use write_bytes::writer::Writer;
use write_text::comment::Comment;

// Reads the start of a file, and answers how many bytes were read.
fn read_file(rt: &impl Files, path: &str, bytes: &mut [u8]) -> io::Result<usize>
    ensures { ReadsAtMost result bytes.new }
{
    let mut file = fs::open(rt, path)?;
    read_input::fill(&mut file, bytes)
}

// Reads the start of the file that argument i names, and answers how many bytes were read: none where it can't be read, which it says on
// standard error.
fn read_argument(rt: &(impl Env + Files + Eprint), i: usize, bytes: &mut [u8]) -> io::Result<usize>
    ensures { ReadsAtMost result bytes.new }
{
    let mut buffer = [0u8; 4096];
    let path = read_input::argument(rt, i, &mut buffer);
    match read_file(rt, path, bytes) {
        Ok(n) => Ok(n),
        Err(e) => {
            eprintln!(rt; "{path}: {e}")?;
            Ok(0)
        }
    }
}

// Writes argument i as a line.
fn show_argument(rt: &(impl Env + Print), i: usize) -> io::Result<()> {
    let mut buffer = [0u8; 4096];
    let path = read_input::argument(rt, i, &mut buffer);
    println!(rt; "{path} differs")
}

// Whether `termscript` writes these bytes for a file.
fn is_expected(file: &[u8], expected: &[u8]) -> bool {
    let mut work = [0u32; 16384];
    let mut script = [0u8; 65536];
    let end = encoder::print::print(file, &mut work, &mut script);
    script.get(..end) == Some(expected)
}

// The text of a line that is a comment.
fn comment_of(line: &[u8]) -> Option<&[u8]> {
    line.strip_prefix(b"; ")?.strip_suffix(b"\n")
}

// Writes a line of a script: the text of a comment cut and with spaces for its control characters, and any other line as it is.
fn put_line(w: &mut Writer<'_>, line: &[u8]) {
    match comment_of(line) {
        Some(text) => {
            w.put(b"; ");
            Comment { points: 0 }.put(w, text);
            w.put_byte(b'\n');
        }
        None => w.put(line),
    }
}

// Writes the lines of a script one after another.
fn put_lines(w: &mut Writer<'_>, script: &[u8]) {
    for line in script.split_inclusive(|b| *b == b'\n') {
        put_line(w, line);
    }
}

// Whether the file of argument i is encoded to that of argument j.
fn agrees(rt: &(impl Env + Files + Eprint), i: usize, j: usize) -> io::Result<bool> {
    let mut file = [0u8; 8193];
    let mut stored = [0u8; 65536];
    let mut expected = [0u8; 65536];
    let n = read_argument(rt, i, &mut file)?;
    let m = read_argument(rt, j, &mut stored)?;
    let mut w = Writer::new(&mut expected);
    put_lines(&mut w, &stored[..m]);
    let end = w.at;
    match expected.get(..end) {
        Some(bytes) => Ok(is_expected(&file[..n], bytes)),
        None => Ok(false),
    }
}

// Whether there is no argument i.
fn is_missing(rt: &impl Env, i: usize) -> bool {
    matches!(rt.arg(i, &mut []), Err(FillError::NotPresent))
}

// How many arguments there are, of fewer than a million.
fn arguments(rt: &impl Env) -> usize
    ensures { result < 1000000 }
{
    for i in 0..1000000 {
        if is_missing(rt, i) {
            return i;
        }
    }
    0
}

fn show_counts(rt: &impl Print, compared: usize, differ: usize) -> io::Result<()> {
    println!(rt; "{compared} compared, {differ} differ")
}

fn main(rt: HostRuntime) -> io::Result<()> {
    let count = arguments(&rt);
    let mut compared = 0;
    let mut differ = 0;
    for pair in 0..count.saturating_sub(1) / 2 {
        let i = 2 * pair + 1;
        if !agrees(&rt, i, i + 1)? {
            show_argument(&rt, i)?;
            differ += 1;
        }
        compared += 1;
    }
    show_counts(&rt, compared, differ)
}
