// A writer: a lent buffer with a limit and the place that the writes have come to.
ghost use Rattle.std.specs.Prelude.{◌≡◌, [], ◌∷◌, ◌-◌, min, ltb, length};
ghost use Rattle.write_bytes.specs.Writing.{ceiling, moved};
ghost use Rattle.write_bytes.specs.Writers.{Writes, InRest, Lends, Finishes};

use refusal::Refusal;

// The length of the longest slice.
const LONGEST: usize = 9223372036854775807;

// A lent buffer, how many of its bytes count, and the place after what is written; all places past the limit are alike.
#[derive(Drop)]
pub struct Writer<'a> {
    pub out: &'a mut [u8],
    pub limit: usize,
    pub at: usize,
}

// One line of a script or more, with all that it is written from.
pub trait Line: Drop {
    ghost use Rattle.write_bytes.specs.declared.writer.Writer.{Writer};

    // What writing it does to a writer.
    ghost written: { Self → Writer → Writer → Type 0 };

    // Writes it.
    fn write(self, w: &mut Writer<'_>)
        ensures { written self w.old w.new };
}

// Copies a text over a part of its length. Of the loop the compiler makes a `memcpy`, and a fixed move where the length is known.
fn copy(out: &mut [u8], s: &[u8])
    requires { length out.old ≡ length s.now }
    ensures { out.new ≡ s.now }
{
    for i in 0..s.len() {
        out[i] = s[i];
    }
}

impl<'a> Writer<'a> {
    // A writer at the start of a buffer, all of which counts.
    pub fn new(out: &'a mut [u8]) -> Writer<'a>
        ensures same { result.out.ghost_name ≡ out.entry.ghost_name }
        ensures holds { result.out.now ≡ out.old }
        ensures limit { result.limit ≡ length out.old }
        ensures at { result.at ≡ 0 }
    {
        let limit = out.len();
        Writer { out, limit, at: 0 }
    }

    // Where the part that is written into ends: at the limit, or where the buffer ends.
    fn end(&self) -> usize
        ensures { result ≡ min (length self.now.out.now) self.now.limit }
    {
        self.out.len().min(self.limit)
    }

    // The place after n more bytes: one past the limit where they do not fit.
    fn after(&self, n: usize) -> usize
        ensures { result ≡ moved self.now.at n (ceiling self.now.limit) }
    {
        self.at.saturating_add(n).min(self.limit.min(LONGEST) + 1)
    }

    // Writes a text. The length of a byte string is known where it is named, so there a text that fits is a fixed move.
    pub fn put(&mut self, s: &[u8])
        ensures { Writes self.old self.new s.now }
    {
        let end = self.end();
        let from = self.at.min(end);
        if s.len() <= end - from {
            copy(&mut self.out[from..from + s.len()], s);
            self.at += s.len();
            return;
        }
        self.put_cut(s)
    }

    // Writes as much of a text as there is room for. It is rare, and out of line it keeps `put` short.
    #[inline(never)]
    fn put_cut(&mut self, s: &[u8])
        ensures { Writes self.old self.new s.now }
    {
        let end = self.end();
        let from = self.at.min(end);
        let n = s.len().min(end - from);
        copy(&mut self.out[from..from + n], &s[..n]);
        self.at = self.after(s.len());
    }

    // Writes one byte.
    pub fn put_byte(&mut self, b: u8)
        ensures { Writes self.old self.new (b ∷ []) }
    {
        if self.at < self.end() {
            self.out[self.at] = b;
            self.at += 1;
            return;
        }
        self.at = self.after(1);
    }

    // How many bytes count after the place.
    pub fn room(&self) -> usize
        ensures { result ≡ ceiling self.now.limit - self.now.at }
    {
        self.limit.min(LONGEST).saturating_sub(self.at)
    }

    // Whether nothing is written any more, since the place is past the limit.
    pub fn is_past(&self) -> bool
        ensures { result ≡ ltb (ceiling self.now.limit) self.now.at }
    {
        self.limit.min(LONGEST) < self.at
    }

    // Lends the unwritten part of the buffer to a line, and goes on after it. Past the limit the line is not written.
    pub fn lend<L: Line>(&mut self, line: L)
        ensures { Lends (L.written line) self.old self.new }
    {
        if self.is_past() {
            return;
        }
        let from = self.at.min(self.out.len());
        let room = self.room();
        let length = write_line(&mut self.out[from..], room, line);
        self.at = self.after(length);
    }

    // Ends a run of writes whose limit was the length of the buffer: the length, and zeros past it; or no room, and zeros alone.
    pub fn finish(&mut self) -> Result<usize, Refusal>
        ensures { Finishes self.old self.new result }
    {
        if self.out.len() < self.at {
            crate::clear(self.out, 0);
            return Err(Refusal::NoRoom);
        }
        crate::clear(self.out, self.at);
        Ok(self.at)
    }
}

// Writes a line into the rest of a buffer, of which so many bytes count, and answers its length.
fn write_line<L: Line>(rest: &mut [u8], room: usize, line: L) -> usize
    ensures { InRest (L.written line) room rest.old rest.new result }
{
    let mut w = Writer {
        out: rest,
        limit: room,
        at: 0,
    };
    line.write(&mut w);
    w.at
}
