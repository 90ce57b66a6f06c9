// Checks term files, and writes a line for each: its name, and check's answer. The arguments name the first files; standard input has
// the others, one after another.
#![tactic(auto)]

use refusal::Refused;
use std::env::{Env, FillError};
use std::fs::Files;
use std::io::{Input, Read};
use std::{fs, io};

fn show(rt: &impl Print, answer: Result<(), Refused>) -> io::Result<()> {
    match answer {
        Ok(()) => println!(rt; ": accepted"),
        Err(Refused { refusal, place, .. }) => {
            println!(rt; ": refused {} record {place}", refusal.number())
        }
    }
}

// Checks the first bytes of a file, so many, with so many entries of working memory.
fn check_first(
    rt: &impl Print,
    file: &[u8],
    size: usize,
    work: &mut [u32],
    entries: usize,
) -> io::Result<()> {
    if file.len() < size {
        return Ok(());
    }
    if work.len() < entries {
        return Ok(());
    }
    show(rt, check_file::check(&file[..size], &mut work[..entries]))
}

// Reads the start of a file, and answers how many bytes were read.
fn read_file(rt: &impl Files, path: &str, file: &mut [u8]) -> io::Result<usize> {
    let mut opened = fs::open(rt, path)?;
    read_input::fill(&mut opened, file)
}

// Checks the file of this name.
fn check_file(
    rt: &(impl Files + Print),
    path: &str,
    file: &mut [u8],
    work: &mut [u32],
) -> io::Result<()> {
    print!(rt; "{path}")?;
    let entries = work.len();
    match read_file(rt, path, file) {
        Ok(size) => check_first(rt, file, size, work, entries),
        Err(_) => println!(rt; ": not read"),
    }
}

// Checks the file that argument i names.
fn check_argument(
    rt: &(impl Env + Files + Print),
    i: usize,
    file: &mut [u8],
    work: &mut [u32],
) -> io::Result<()> {
    let mut buffer = [0u8; 4096];
    let path = read_input::argument(rt, i, &mut buffer);
    check_file(rt, path, file, work)
}

// Whether there is no argument i.
fn is_missing(rt: &impl Env, i: usize) -> bool {
    matches!(rt.arg(i, &mut []), Err(FillError::NotPresent))
}

fn check_arguments(
    rt: &(impl Env + Files + Print),
    file: &mut [u8],
    work: &mut [u32],
) -> io::Result<()> {
    for i in 1..usize::MAX {
        if is_missing(rt, i) {
            break;
        }
        check_argument(rt, i, file, work)?;
    }
    Ok(())
}

// The next number of the input, of four bytes, low byte first; none where the input ends.
fn next_number(input: &mut impl Read) -> io::Result<Option<usize>> {
    let mut bytes = [0u8; 4];
    let n = read_input::fill(input, &mut bytes)?;
    if n < 4 {
        return Ok(None);
    }
    Ok(Some(u32::from_le_bytes(bytes) as usize))
}

// Reads a text of this length, and writes it.
fn copy(rt: &impl Print, input: &mut impl Read, part: &mut [u8]) -> io::Result<()> {
    read_input::fill(input, part)?;
    rt.write_all(part)
}

// Reads a name and writes it; answers whether there was one.
fn copy_name(rt: &impl Print, input: &mut impl Read, name: &mut [u8]) -> io::Result<bool> {
    match next_number(input)? {
        Some(length) if length <= name.len() => {
            copy(rt, input, &mut name[..length])?;
            Ok(true)
        }
        _ => Ok(false),
    }
}

// Reads the first n bytes of a file.
fn read_first(input: &mut impl Read, file: &mut [u8], n: usize) -> io::Result<()> {
    if n <= file.len() {
        read_input::fill(input, &mut file[..n])?;
    }
    Ok(())
}

// Repeats the first n bytes of a file until it has so many.
fn repeat(file: &mut [u8], n: usize, size: usize) {
    for i in n..size.min(file.len()) {
        file[i] = file[i - n];
    }
}

// Reads a case and checks it; answers whether there was one.
fn check_case(
    rt: &impl Print,
    input: &mut impl Read,
    file: &mut [u8],
    work: &mut [u32],
) -> io::Result<bool> {
    let mut name = [0u8; 128];
    if !copy_name(rt, input, &mut name)? {
        return Ok(false);
    }
    let entries = next_number(input)?.unwrap_or(usize::MAX);
    let size = next_number(input)?.unwrap_or(usize::MAX);
    let n = next_number(input)?.unwrap_or(usize::MAX);
    read_first(input, file, n)?;
    repeat(file, n, size);
    check_first(rt, file, size, work, entries)?;
    Ok(true)
}

fn check_cases(
    rt: &impl Print,
    input: &mut impl Read,
    file: &mut [u8],
    work: &mut [u32],
) -> io::Result<()> {
    for _ in 0..u64::MAX {
        if !check_case(rt, input, file, work)? {
            break;
        }
    }
    Ok(())
}

// Room for a file and a byte more than a file may have.
fn file_buffer() -> [u8; 1048577] {
    [0; 1048577]
}

fn work_buffer() -> [u32; 850000] {
    [0; 850000]
}

fn main(rt: HostRuntime) -> io::Result<()> {
    let mut file = file_buffer();
    let mut work = work_buffer();
    check_arguments(&rt, &mut file, &mut work)?;
    check_cases(&rt, &mut rt.reader(), &mut file, &mut work)
}
