// Applications of operators.
ghost use Rattle.std.specs.Prelude.{[], ◌∷◌};
ghost use Rattle.script_spec.specs.Base.{bytes};
ghost use Rattle.script_spec.specs.Text.{decimal};
ghost use Rattle.script_spec.specs.Command.{headed};
ghost use Rattle.write_bytes.specs.Writers.{Writes};
ghost use Rattle.write_terms.specs.Applications.{SpellsSelector, SpellsOperatorHead, SpellsApplied, SpellsOperator, SpellsComparison, SpellsLike};

use crate::arguments::{put_arguments, put_closed};
use index::{Column, Records};
use index_entry::terms::{Application, Children};
use read_operator::Op;
use walk_names::naming::Named;
use write_atoms::parts::PartName;
use write_bytes::writer::Writer;

// The comparison of an argument with the least signed number of a width.
#[derive(Clone, Copy)]
pub struct Comparison<'a> {
    pub arguments: Children<'a>,
    pub width: u32,
}

// Writes the selector of an attribute; the type of the first argument decides. Past the limit the attribute is not looked up.
fn put_selector(records: Records<'_>, w: &mut Writer<'_>, arguments: Children<'_>, name: &[u8])
    ensures { SpellsSelector records.entry arguments.entry name.now w.old w.new }
{
    if w.is_past() {
        return;
    }
    let mut left = arguments;
    let Some(first) = left.next() else {
        return;
    };
    let t = records.get(Column::TermType, first);
    if let Ok(i) = walk_queries::queries::index_of_attr(records, t, name) {
        write_atoms::parts::put_numbered(records, w, b"_a", PartName { of: t, place: i })
    }
}

// Writes the operator that adds n bits.
fn put_zero_extend(w: &mut Writer<'_>, n: u32)
    ensures { Writes w.old w.new (headed (bytes "_") (bytes "zero_extend" ∷ decimal n ∷ [])) }
{
    w.put(b"(_ zero_extend ");
    write_numeral::put_decimal(w, u64::from(n));
    w.put_byte(b')')
}

// Writes what stands before the arguments of an operator.
fn put_head(records: Records<'_>, w: &mut Writer<'_>, call: Application<'_>)
    ensures { SpellsOperatorHead records.entry call.entry w.old w.new }
{
    match call.op {
        Op::RecordGet(name) => put_selector(records, w, call.arguments, name),
        Op::Uuf(g) => {
            let name = walk_names::naming::get(records, Named::Funs, g);
            walk_names::naming::put_name(w, b'f', name)
        }
        Op::ZeroExtend(n) => put_zero_extend(w, n),
        op => write_atoms::symbols::put_symbol(w, op),
    }
}

// Writes an operator before its arguments.
fn put_applied(records: Records<'_>, w: &mut Writer<'_>, call: Application<'_>)
    ensures { SpellsApplied records.entry call.entry w.old w.new }
{
    w.put_byte(b'(');
    put_head(records, w, call);
    put_closed(records, w, call.arguments)
}

// Writes a comparison.
pub fn put_comparison(records: Records<'_>, w: &mut Writer<'_>, compared: Comparison<'_>)
    ensures { SpellsComparison records.entry compared.entry w.old w.new }
{
    w.put(b"(=");
    put_arguments(records, w, compared.arguments);
    w.put_byte(b' ');
    write_bitvec::spelling::put_int_min(w, compared.width);
    w.put_byte(b')')
}

// Writes the match of an argument with a pattern.
fn put_like(records: Records<'_>, w: &mut Writer<'_>, arguments: Children<'_>, pattern: &[u8])
    ensures { SpellsLike records.entry arguments.entry pattern.now w.old w.new }
{
    w.put(b"(str.in_re");
    put_arguments(records, w, arguments);
    w.put_byte(b' ');
    write_pattern::put_pattern(w, pattern);
    w.put_byte(b')')
}

// Writes an application of an operator.
pub fn put_operator(records: Records<'_>, w: &mut Writer<'_>, call: Application<'_>)
    ensures { SpellsOperator records.entry call.entry w.old w.new }
{
    match call.op {
        Op::StringLike(pattern) => put_like(records, w, call.arguments, pattern),
        _ => put_applied(records, w, call),
    }
}
