// The start of an input and the program's arguments, read into lent buffers.
#![tactic(auto)]

ghost use Rattle.std.specs.Prelude.{◌<◌, IfOk, length, take};
ghost use Rattle.std.specs.Io.{ReadsAtMost};
ghost use Rattle.std.specs.Io.KnownBytes.{Consumes, IsAtEnd};

use std::env::Env;
use std::io;
use std::io::Read;

// Reads until the buffer is full or the input ends, and answers how many bytes stand at the buffer's start. It reads no more than the
// buffer takes, and where a read fails it answers the error.
pub fn fill<R: Read>(reader: &mut R, buf: &mut [u8]) -> io::Result<usize>
    ensures bound { ReadsAtMost result buf.new }
    ensures bytes { IfOk result (λ n. Consumes (R.remaining reader.old) (R.remaining reader.new) (take n buf.new)) }
    ensures end { IfOk result (λ n. n < length buf.new → IsAtEnd (R.remaining reader.new)) }
{
    let mut done = 0;
    while done < buf.len() {
        let n = reader.read(&mut buf[done..])?;
        if n == 0 {
            return Ok(done);
        }
        done += n;
    }
    Ok(done)
}

// The text of argument i, which the buffer takes. It is empty where there is no such argument, where the argument is longer than the
// buffer, and where it is not UTF-8.
pub fn argument<'a>(rt: &impl Env, i: usize, buf: &'a mut [u8]) -> &'a str {
    match rt.arg(i, buf) {
        Ok(n) => str::from_utf8(&buf[..n]).unwrap_or(""),
        Err(_) => "",
    }
}
