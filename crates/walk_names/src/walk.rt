// How far the encoder's walk has come: the records with the names that were given, the script, and how many names there are.
ghost use Rattle.std.specs.Prelude.{◌≡◌};
ghost use Rattle.walk_names.specs.Progress.{Counts, Enters};

use crate::naming;
use crate::naming::Named;
use index::RecordsMut;
use refusal::Refusal;
use write_bytes::writer::Writer;

// The records, the script, and how many types, functions and terms have a name.
#[derive(Drop)]
pub struct Walk<'r, 'w, 'o, 's> {
    pub records: &'r mut RecordsMut<'w>,
    pub script: &'o mut Writer<'s>,
    pub types: u32,
    pub funs: u32,
    pub terms: u32,
}

// Why the walk stops, the number of the refused term, and the position of a code point in its text; 0 where it is of none.
#[derive(Clone, Copy)]
pub struct Stopped {
    pub refusal: Refusal,
    pub term: u32,
    pub position: usize,
}

impl Walk<'_, '_, '_, '_> {
    // Counts one name more, and answers how many there are.
    fn count(&mut self, named: Named) -> u32
        ensures { Counts named self.old self.new result }
    {
        match named {
            Named::Types => {
                self.types = self.types.saturating_add(1);
                self.types
            }
            Named::Funs => {
                self.funs = self.funs.saturating_add(1);
                self.funs
            }
            Named::Terms => {
                self.terms = self.terms.saturating_add(1);
                self.terms
            }
        }
    }

    // Gives the record with number n the next name.
    pub fn enter(&mut self, named: Named, n: u32)
        ensures { Enters named n self.old self.new }
    {
        let name = self.count(named);
        naming::set(self.records, named, n, name)
    }
}
