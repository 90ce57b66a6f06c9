// The definition of a term as a line.
ghost use Rattle.write_terms.specs.Definitions.{BodyIs, SpellsBodyOf, SpellsDefinition};

use crate::applications::{Comparison, put_comparison, put_operator};
use crate::{lines, values};
use index::Records;
use index_entry::terms::{Application, Children, Compound};
use read_operator::Op;
use write_bytes::writer::{Line, Writer};

// What the body of a definition is: a term that is not compound, the option of a term, a set, a record, an application by its operator, or
// one as a comparison.
#[derive(Clone, Copy)]
pub enum Body<'a> {
    Plain,
    Some(u32),
    Set(Children<'a>),
    Record(Children<'a>),
    Ordinary(Op<'a>, Children<'a>),
    Comparison(Comparison<'a>),
}

// The definition of the term with this number.
#[derive(Clone, Copy)]
pub struct Definition<'a> {
    pub records: Records<'a>,
    pub number: u32,
    pub body: Body<'a>,
}

// Writes the term with number n in full, by what its body is.
fn put_body(records: Records<'_>, w: &mut Writer<'_>, n: u32, body: Body<'_>)
    ensures { SpellsBodyOf records.entry n (BodyIs n body.entry) w.old w.new }
{
    match body {
        Body::Plain => lines::put_body(records, w, n),
        Body::Some(m) => values::put_some(records, w, m),
        Body::Set(children) => {
            let term = Compound {
                number: n,
                children,
            };
            values::put_set(records, w, term)
        }
        Body::Record(children) => {
            let term = Compound {
                number: n,
                children,
            };
            values::put_record(records, w, term)
        }
        Body::Ordinary(op, arguments) => {
            let call = Application {
                number: n,
                op,
                arguments,
            };
            put_operator(records, w, call)
        }
        Body::Comparison(compared) => put_comparison(records, w, compared),
    }
}

impl Line for Definition<'_> {
    ghost written = { λ term. SpellsDefinition term.records term.number (BodyIs term.number term.body) };

    fn write(self, w: &mut Writer<'_>) {
        lines::put_head(self.records, w, self.number);
        put_body(self.records, w, self.number, self.body);
        w.put(b")\n")
    }
}
