// Lines on standard output.
use std::io;
use write_bytes::writer::Writer;

// Prints as a line what a writer has written.
fn print(rt: &impl Print, w: &Writer<'_>) -> io::Result<()> {
    if w.at <= w.out.len() {
        rt.write_all(&w.out[..w.at])?;
    }
    rt.write_all(b"\n")
}

// Prints as a line what is put into a writer.
pub(crate) fn line<F: FnOnce(&mut Writer<'_>)>(rt: &impl Print, put: F) -> io::Result<()>
    requires { F.IsAlwaysCallable put }
{
    let mut out = [0u8; 1024];
    let mut w = Writer::new(&mut out);
    put(&mut w);
    print(rt, &w)
}
