// Writes each command once, and then a refusal of each kind, to standard output.
#![tactic(auto)]

use refusal::Refusal;
use smtlib_script::commands;
use std::io;

// Writes the first n bytes.
fn write_first(rt: &impl Print, out: &[u8], n: usize) -> io::Result<()> {
    if n <= out.len() {
        rt.write_all(&out[..n])?;
    }
    Ok(())
}

// Writes what a call left in its buffer, or its refusal.
fn show(rt: &impl Print, answer: Result<usize, Refusal>, out: &[u8]) -> io::Result<()> {
    match answer {
        Ok(n) => write_first(rt, out, n),
        Err(refusal) => println!(rt; "refused {} record 0", refusal.number()),
    }
}

// Commands without texts.
fn plain(rt: &impl Print, out: &mut [u8]) -> io::Result<()> {
    let a = commands::reset(out);
    show(rt, a, out)?;
    let b = commands::check_sat(out);
    show(rt, b, out)?;
    let c = commands::get_model(out);
    show(rt, c, out)?;
    let d = commands::exit(out);
    show(rt, d, out)
}

// What a script begins with.
fn preamble(rt: &impl Print, out: &mut [u8]) -> io::Result<()> {
    let a = commands::set_logic(b"ALL", out);
    show(rt, a, out)?;
    let b = commands::set_option(b"produce-models", b"true", out);
    show(rt, b, out)?;
    let c = commands::comment(b"two\nlines\r", out);
    show(rt, c, out)
}

// A constant and an assertion.
fn constant(rt: &impl Print, out: &mut [u8]) -> io::Result<()> {
    let a = commands::declare_const(b"t0", b"Bool", out);
    show(rt, a, out)?;
    let b = commands::assert_that(b"(not t0)", out);
    show(rt, b, out)
}

// A datatype with parameters, and one without.
fn declare_datatypes(
    rt: &impl Print,
    params: &[&[u8]],
    constructors: &[&[u8]],
    out: &mut [u8],
) -> io::Result<()> {
    let a = commands::declare_datatype(b"Option", params, constructors, out);
    show(rt, a, out)?;
    let b = commands::declare_datatype(b"E0", &params[..0], constructors, out);
    show(rt, b, out)
}

// Functions of two arguments.
fn functions(rt: &impl Print, names: &[&[u8]], sorts: &[&[u8]], out: &mut [u8]) -> io::Result<()> {
    let a = commands::declare_fun(b"f0", sorts, b"Bool", out);
    show(rt, a, out)?;
    let b = commands::define_fun(b"t1", names, sorts, b"Bool", b"(f0 x y)", out);
    show(rt, b, out)
}

// Commands with lists of texts.
fn lists<'a>(rt: &impl Print, x: &'a [u8], y: &'a [u8], out: &mut [u8]) -> io::Result<()> {
    let params = [x];
    let pair = [x, y];
    declare_datatypes(rt, &params, &pair, out)?;
    functions(rt, &pair, &pair, out)
}

// A text that is not UTF-8, room that is one byte short, and room that is just enough.
fn refusals(rt: &impl Print, out: &mut [u8]) -> io::Result<()> {
    let a = commands::assert_that(b"\xc0\x80", out);
    show(rt, a, out)?;
    let mut short = [0; 6];
    let b = commands::exit(&mut short);
    show(rt, b, &short)?;
    let mut enough = [0; 7];
    let c = commands::exit(&mut enough);
    show(rt, c, &enough)
}

fn main(rt: HostRuntime) -> io::Result<()> {
    let mut space = [0u8; 4096];
    let out: &mut [u8] = &mut space;
    plain(&rt, out)?;
    preamble(&rt, out)?;
    constant(&rt, out)?;
    lists(&rt, b"x", b"y", out)?;
    refusals(&rt, out)
}
