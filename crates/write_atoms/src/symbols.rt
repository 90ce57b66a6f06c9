// The symbols of operators, in the order of `Op`.
ghost use Rattle.std.specs.Prelude.{◌≡◌};
ghost use Rattle.script_spec.specs.Spelling.{ext_op_name};
ghost use Rattle.write_bytes.specs.Writers.{Writes};
ghost use Rattle.read_operator.specs.Operators.{ext_of};
ghost use Rattle.write_atoms.specs.Symbols.{symbol_of};

use read_operator::{ExtOp, Op};
use write_bytes::writer::Writer;

// The symbol of an extension operator.
#[tactic(auto, unfolding(script_spec::specs::Base::bytes, script_spec::specs::Spelling::ext_op_name, read_operator::specs::Operators::ext_of))]
fn ext_symbol(x: ExtOp) -> &'static [u8]
    ensures { result.now ≡ ext_op_name (ext_of x) }
{
    match x {
        ExtOp::DatetimeOfBitVec => b"Datetime",
        ExtOp::DatetimeVal => b"datetimeVal",
        ExtOp::DecimalVal => b"decimalVal",
        ExtOp::DurationOfBitVec => b"Duration",
        ExtOp::DurationVal => b"durationVal",
        ExtOp::IpaddrAddrV4 => b"addrV4",
        ExtOp::IpaddrAddrV6 => b"addrV6",
        ExtOp::IpaddrIsV4 => b"(_ is V4)",
        ExtOp::IpaddrPrefixV4 => b"prefixV4",
        ExtOp::IpaddrPrefixV6 => b"prefixV6",
    }
}

// The symbol of an operator; nothing where it has none.
#[tactic(auto, unfolding(script_spec::specs::Base::bytes, script_spec::specs::Spelling::plain_name, read_operator::specs::Operators::op_of, crate::specs::Symbols::symbol, crate::specs::Symbols::symbol_of))]
fn symbol(op: Op<'_>) -> &'static [u8]
    ensures { result.now ≡ symbol_of op.entry }
{
    match op {
        Op::And => b"and",
        Op::Bvadd => b"bvadd",
        Op::Bvlshr => b"bvlshr",
        Op::Bvmul => b"bvmul",
        Op::Bvneg => b"bvneg",
        Op::Bvnego => b"bvnego",
        Op::Bvsaddo => b"bvsaddo",
        Op::Bvsdiv => b"bvsdiv",
        Op::Bvshl => b"bvshl",
        Op::Bvsle => b"bvsle",
        Op::Bvslt => b"bvslt",
        Op::Bvsmod => b"bvsmod",
        Op::Bvsmulo => b"bvsmulo",
        Op::Bvsrem => b"bvsrem",
        Op::Bvssubo => b"bvssubo",
        Op::Bvsub => b"bvsub",
        Op::Bvudiv => b"bvudiv",
        Op::Bvule => b"bvule",
        Op::Bvult => b"bvult",
        Op::Bvurem => b"bvurem",
        Op::Eq => b"=",
        Op::Ext(x) => ext_symbol(x),
        Op::Ite => b"ite",
        Op::Not => b"not",
        Op::OptionGet => b"val",
        Op::Or => b"or",
        Op::SetInter => b"set.inter",
        Op::SetMember => b"set.member",
        Op::SetSubset => b"set.subset",
        Op::RecordGet(_) | Op::StringLike(_) | Op::Uuf(_) | Op::ZeroExtend(_) => b"",
    }
}

// Writes the symbol of an operator; nothing where it has none.
pub fn put_symbol(w: &mut Writer<'_>, op: Op<'_>)
    ensures { Writes w.old w.new (symbol_of op.entry) }
{
    w.put(symbol(op))
}
