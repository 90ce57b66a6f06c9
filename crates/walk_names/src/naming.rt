// Names given to types, functions and terms, in three columns of the working memory. Those of types and terms have held depths, of which
// none is above 256; so a name is stored with 256 more, and an entry without one needs no clearing.
ghost use Rattle.std.specs.Prelude.{◌≡◌, [], ◌∷◌};
ghost use Rattle.script_spec.specs.Walk.{numbered};
ghost use Rattle.refusal.specs.Numbers.{option_of};
ghost use Rattle.index.specs.Cells.{number, cell};
ghost use Rattle.index.specs.Held.{Becomes};
ghost use Rattle.write_bytes.specs.Writers.{Writes};
ghost use Rattle.walk_names.specs.Naming.{first_of, names_of, raised, name_at, name_stored, place_of};

use index::{Column, Records, RecordsMut};
use write_bytes::writer::Writer;

// What is named.
#[derive(Clone, Copy)]
pub enum Named {
    Types,
    Funs,
    Terms,
}

impl Named {
    // The column of the first equal records, and that of the names: those of depths, which only check needs, serve for types and terms.
    fn columns(self) -> (Column, Column)
        ensures first { number result.0 ≡ first_of self }
        ensures names { number result.1 ≡ names_of self }
    {
        match self {
            Named::Types => (Column::TypeFirst, Column::TypeDepth),
            Named::Funs => (Column::FunFirst, Column::FunName),
            Named::Terms => (Column::TermFirst, Column::TermDepth),
        }
    }
}

// How much more a name is stored with: the greatest depth.
const RAISE: u32 = 256;

// The number of the name of the record with number n, by the columns of first equal records and of names, if it has one.
pub fn get_in(work: &[u32], rows: usize, first: usize, names: usize, n: usize) -> Option<u32>
    ensures { option_of result ≡ place_of (name_at work.now rows first names n) }
{
    let at = index::get(work, rows, first, n);
    index::get(work, rows, names, at as usize).checked_sub(RAISE + 1)
}

// The number of the name of the record with number n, if it has one.
pub fn get(records: Records<'_>, named: Named, n: u32) -> Option<u32>
    ensures { option_of result ≡ place_of (name_at records.entry.work.now records.entry.sizes.rows (first_of named) (names_of named) n) }
{
    let (first, names) = named.columns();
    get_in(
        records.work,
        records.sizes.rows,
        first.number(),
        names.number(),
        n as usize,
    )
}

// What is stored for a name, 0 where that does not fit.
fn raised(v: u32) -> u32
    ensures { result ≡ raised v }
{
    v.checked_add(RAISE).unwrap_or(0)
}

// Names the record with number n, by the columns of first equal records and of names.
pub fn set_in(work: &mut [u32], rows: usize, first: usize, names: usize, n: usize, v: u32)
    ensures { work.new ≡ name_stored work.old rows names (cell work.old rows first n) v }
{
    let at = index::get(work, rows, first, n);
    index::set(work, rows, names, at as usize, raised(v))
}

// Names the record with number n.
pub fn set(records: &mut RecordsMut<'_>, named: Named, n: u32, v: u32)
    ensures { Becomes records.old records.new (name_stored records.old.work.now records.old.sizes.rows (names_of named) (cell records.old.work.now records.old.sizes.rows (first_of named) n) v) }
{
    let (first, names) = named.columns();
    set_in(
        &mut *records.work,
        records.sizes.rows,
        first.number(),
        names.number(),
        n as usize,
        v,
    )
}

// Writes a name: its letter and its number. Nothing is written where there is no name.
pub fn put_name(w: &mut Writer<'_>, letter: u8, name: Option<u32>)
    ensures { Writes w.old w.new (numbered (letter ∷ []) (option_of name)) }
{
    if let Some(n) = name {
        w.put_byte(letter);
        write_numeral::put_decimal(w, u64::from(n))
    }
}
