// What the program `termscript` writes for a file: the script, or the one line of a refusal.
ghost use Rattle.std.specs.Prelude.{◌≡◌};
ghost use Rattle.script_spec.specs.Base.{refused};
ghost use Rattle.script_spec.specs.Walk.{printed, has_position, position_words};
ghost use Rattle.refusal.specs.Numbers.{number};
ghost use Rattle.write_bytes.specs.Writers.{Writes};
ghost use Rattle.encoder.specs.Printing.{PrintsRefusal, Prints};

use refusal::{Refusal, Refused};
use write_bytes::writer::Writer;

// How many bytes a file of the program may have.
const LONGEST: usize = 8192;

// Whether the position of a refusal is printed: that of a code point.
fn has_position(refusal: Refusal) -> bool
    ensures { result ≡ has_position (number refusal) }
{
    matches!(
        refusal,
        Refusal::HighId | Refusal::HighString | Refusal::HighPattern
    )
}

// Writes the words of a refusal's position, if it has one.
fn put_position(w: &mut Writer<'_>, why: Refused)
    ensures { Writes w.old w.new (position_words (number why.refusal) why.position) }
{
    if has_position(why.refusal) {
        w.put(b" at ");
        write_numeral::put_decimal(w, why.position as u64);
    }
}

// Writes the line of a refusal.
fn put_refusal(w: &mut Writer<'_>, why: Refused)
    ensures { Writes w.old w.new (printed (refused (number why.refusal) why.place why.position)) }
{
    w.put(b"refused ");
    write_numeral::put_decimal(w, u64::from(why.refusal.number()));
    w.put(b" record ");
    write_numeral::put_decimal(w, why.place as u64);
    put_position(w, why);
    w.put_byte(b'\n');
}

// Prints the line of a refusal into a buffer, and answers its length; or refuses where it does not fit.
fn print_refusal(script: &mut [u8], why: Refused) -> Result<usize, Refusal>
    ensures { PrintsRefusal script.old (number why.refusal) why.place why.position script.new result }
{
    let mut w = Writer::new(script);
    put_refusal(&mut w, why);
    w.finish()
}

// Prints what `termscript` writes for a file into the script's buffer, and answers how many bytes; 0 where they do not fit.
pub fn print(file: &[u8], work: &mut [u32], script: &mut [u8]) -> usize
    ensures { Prints file.now work.old script.old work.new script.new result }
{
    if LONGEST < file.len() {
        write_bytes::clear_words(work);
        let why = Refused {
            refusal: Refusal::FileTooLong,
            place: 0,
            position: 0,
        };
        return print_refusal(script, why).unwrap_or(0);
    }
    match crate::encode(file, work, script) {
        Ok(n) => n,
        Err(why) => print_refusal(script, why).unwrap_or(0),
    }
}
