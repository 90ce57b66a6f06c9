// Operators (op.rs): the operator of an application, read with its operand.
#![tactic(auto)]

ghost use Rattle.std.specs.Prelude.{◌≡◌, ◌<◌, ◌≤◌, ◌^◌};
ghost use Rattle.script_spec.specs.Fields.{operators, operator};
ghost use Rattle.read_field.specs.Reads.{chosen};
ghost use Rattle.read_field.specs.Takes.{Takes};
ghost use Rattle.read_operator.specs.Again.{TakesAgain, TakesBy, count};
ghost use Rattle.read_operator.specs.Codes.{ext_count, bvsmod_code, ext_code, record_get_code};
ghost use Rattle.read_operator.specs.Operators.{IsExt, Operand, op_read, ext_operator, record_get_operand, string_like, uninterpreted, zero_extend};

use read_field::list::Item;
use read_field::{Cursor, list};
use refusal::Refusal;

// The codes of the operators, all of them; others ask for those with an operand and for that of `Bvnego`.
const AND: u8 = 0;

const BVADD: u8 = 1;

const BVLSHR: u8 = 2;

const BVMUL: u8 = 3;

const BVNEG: u8 = 4;

pub const BVNEGO: u8 = 5;

const BVSADDO: u8 = 6;

const BVSDIV: u8 = 7;

const BVSHL: u8 = 8;

const BVSLE: u8 = 9;

const BVSLT: u8 = 10;

const BVSMOD: u8 = 11;

const BVSMULO: u8 = 12;

const BVSREM: u8 = 13;

const BVSSUBO: u8 = 14;

const BVSUB: u8 = 15;

const BVUDIV: u8 = 16;

const BVULE: u8 = 17;

const BVULT: u8 = 18;

const BVUREM: u8 = 19;

const EQ: u8 = 20;

pub const EXT: u8 = 21;

const ITE: u8 = 22;

const NOT: u8 = 23;

const OPTION_GET: u8 = 24;

const OR: u8 = 25;

pub const RECORD_GET: u8 = 26;

const SET_INTER: u8 = 27;

const SET_MEMBER: u8 = 28;

const SET_SUBSET: u8 = 29;

pub const STRING_LIKE: u8 = 30;

pub const UUF: u8 = 31;

pub const ZERO_EXTEND: u8 = 32;

// The codes of the extension operators, and how many there are.
const DATETIME_OF_BIT_VEC: u32 = 0;

const DATETIME_VAL: u32 = 1;

const DECIMAL_VAL: u32 = 2;

const DURATION_OF_BIT_VEC: u32 = 3;

const DURATION_VAL: u32 = 4;

const IPADDR_ADDR_V4: u32 = 5;

const IPADDR_ADDR_V6: u32 = 6;

const IPADDR_IS_V4: u32 = 7;

const IPADDR_PREFIX_V4: u32 = 8;

const IPADDR_PREFIX_V6: u32 = 9;

const EXT_OPS: u32 = 10;

// The extension operators, in the order of `ExtOp`.
#[derive(Clone, Copy)]
pub enum ExtOp {
    DatetimeOfBitVec,
    DatetimeVal,
    DecimalVal,
    DurationOfBitVec,
    DurationVal,
    IpaddrAddrV4,
    IpaddrAddrV6,
    IpaddrIsV4,
    IpaddrPrefixV4,
    IpaddrPrefixV6,
}

// The operators, each with its operand: of a `StringLike` the bytes of its elements, four each.
#[derive(Clone, Copy)]
pub enum Op<'a> {
    And,
    Bvadd,
    Bvlshr,
    Bvmul,
    Bvneg,
    Bvnego,
    Bvsaddo,
    Bvsdiv,
    Bvshl,
    Bvsle,
    Bvslt,
    Bvsmod,
    Bvsmulo,
    Bvsrem,
    Bvssubo,
    Bvsub,
    Bvudiv,
    Bvule,
    Bvult,
    Bvurem,
    Eq,
    Ext(ExtOp),
    Ite,
    Not,
    OptionGet,
    Or,
    RecordGet(&'a [u8]),
    SetInter,
    SetMember,
    SetSubset,
    StringLike(&'a [u8]),
    Uuf(u32),
    ZeroExtend(u32),
}

// The extension operator of a code.
fn ext_of(code: u32) -> ExtOp
    requires { code < ext_count }
    ensures { IsExt code result }
{
    match code {
        DATETIME_OF_BIT_VEC => ExtOp::DatetimeOfBitVec,
        DATETIME_VAL => ExtOp::DatetimeVal,
        DECIMAL_VAL => ExtOp::DecimalVal,
        DURATION_OF_BIT_VEC => ExtOp::DurationOfBitVec,
        DURATION_VAL => ExtOp::DurationVal,
        IPADDR_ADDR_V4 => ExtOp::IpaddrAddrV4,
        IPADDR_ADDR_V6 => ExtOp::IpaddrAddrV6,
        IPADDR_IS_V4 => ExtOp::IpaddrIsV4,
        IPADDR_PREFIX_V4 => ExtOp::IpaddrPrefixV4,
        _ => ExtOp::IpaddrPrefixV6,
    }
}

// An extension operator, after the code of `Ext`.
fn ext<'a>(c: Cursor<'a>) -> Result<(Op<'a>, Cursor<'a>), Refusal>
    ensures { Takes ext_operator c.entry (op_read result) }
{
    let (code, rest) = c.byte()?;
    if code < EXT_OPS {
        return Ok((Op::Ext(ext_of(code)), rest));
    }
    Err(Refusal::OutOfRange)
}

// The name of the attribute of a `RecordGet`, which is tested to be UTF-8, or taken as its count says.
fn record_get<'a, const TESTED: bool>(c: Cursor<'a>) -> Result<(Op<'a>, Cursor<'a>), Refusal>
    ensures { TakesBy TESTED record_get_operand c.entry (op_read result) }
{
    if TESTED {
        let (name, rest) = c.text()?;
        return Ok((Op::RecordGet(name), rest));
    }
    let (n, counted) = c.u32_le()?;
    let (name, rest) = counted.part(n as usize)?;
    Ok((Op::RecordGet(name), rest))
}

// The pattern of a `StringLike`, whose elements are tested, or taken as their count says.
fn string_like<'a, const TESTED: bool>(c: Cursor<'a>) -> Result<(Op<'a>, Cursor<'a>), Refusal>
    ensures { TakesBy TESTED string_like c.entry (op_read result) }
{
    let (n, start) = c.u32_le()?;
    let size = 4 * (n as usize);
    if TESTED {
        let rest = list::items(start, Item::Element, n)?;
        let elements = read_field::part_of(start.body, start.at, size);
        return Ok((Op::StringLike(elements), rest));
    }
    let (elements, rest) = start.part(size)?;
    Ok((Op::StringLike(elements), rest))
}

// The function of a `Uuf`, one of `funs` earlier ones, or whatever its number.
fn uuf<'a, const TESTED: bool>(c: Cursor<'a>, funs: u32) -> Result<(Op<'a>, Cursor<'a>), Refusal>
    ensures { TakesBy TESTED (uninterpreted (count TESTED funs)) c.entry (op_read result) }
{
    if TESTED {
        let (n, rest) = c.reference(funs)?;
        return Ok((Op::Uuf(n), rest));
    }
    let (n, rest) = c.u32_le()?;
    Ok((Op::Uuf(n), rest))
}

// The number of bits of a `ZeroExtend`.
fn zero_extend<'a>(c: Cursor<'a>) -> Result<(Op<'a>, Cursor<'a>), Refusal>
    ensures { Takes zero_extend c.entry (op_read result) }
{
    let (n, rest) = c.u32_le()?;
    Ok((Op::ZeroExtend(n), rest))
}

// The operators by their codes, in four ranges, since a match of all in one function takes long to prove: `And` to `Bvslt`.
fn and_to_bvslt<'a>(code: u8) -> Op<'a>
    requires { code < bvsmod_code }
    ensures { Operand code result }
{
    match code {
        AND => Op::And,
        BVADD => Op::Bvadd,
        BVLSHR => Op::Bvlshr,
        BVMUL => Op::Bvmul,
        BVNEG => Op::Bvneg,
        BVNEGO => Op::Bvnego,
        BVSADDO => Op::Bvsaddo,
        BVSDIV => Op::Bvsdiv,
        BVSHL => Op::Bvshl,
        BVSLE => Op::Bvsle,
        _ => Op::Bvslt,
    }
}

// `Bvsmod` to `Eq`.
fn bvsmod_to_eq<'a>(code: u8) -> Op<'a>
    requires { (bvsmod_code ≤ code) × (code < ext_code) }
    ensures { Operand code result }
{
    match code {
        BVSMOD => Op::Bvsmod,
        BVSMULO => Op::Bvsmulo,
        BVSREM => Op::Bvsrem,
        BVSSUBO => Op::Bvssubo,
        BVSUB => Op::Bvsub,
        BVUDIV => Op::Bvudiv,
        BVULE => Op::Bvule,
        BVULT => Op::Bvult,
        BVUREM => Op::Bvurem,
        _ => Op::Eq,
    }
}

// `Ext` to `Or`.
fn ext_to_or<'a>(c: Cursor<'a>, code: u8, funs: u32) -> Result<(Op<'a>, Cursor<'a>), Refusal>
    requires { (ext_code ≤ code) × (code < record_get_code) }
    ensures { Takes (chosen (operators funs) code) c.entry (op_read result) }
{
    match code {
        EXT => ext(c),
        ITE => Ok((Op::Ite, c)),
        NOT => Ok((Op::Not, c)),
        OPTION_GET => Ok((Op::OptionGet, c)),
        _ => Ok((Op::Or, c)),
    }
}

// `RecordGet` to `ZeroExtend`.
fn record_get_to_zero_extend<'a, const TESTED: bool>(
    c: Cursor<'a>,
    code: u8,
    funs: u32,
) -> Result<(Op<'a>, Cursor<'a>), Refusal>
    requires { record_get_code ≤ code }
    ensures { TakesBy TESTED (chosen (operators (count TESTED funs)) code) c.entry (op_read result) }
{
    match code {
        RECORD_GET => record_get::<TESTED>(c),
        SET_INTER => Ok((Op::SetInter, c)),
        SET_MEMBER => Ok((Op::SetMember, c)),
        SET_SUBSET => Ok((Op::SetSubset, c)),
        STRING_LIKE => string_like::<TESTED>(c),
        UUF => uuf::<TESTED>(c, funs),
        ZERO_EXTEND => zero_extend(c),
        _ => Err(Refusal::OutOfRange),
    }
}

// The operator of a code, with its operand.
fn operand<'a, const TESTED: bool>(
    c: Cursor<'a>,
    code: u8,
    funs: u32,
) -> Result<(Op<'a>, Cursor<'a>), Refusal>
    ensures { TakesBy TESTED (chosen (operators (count TESTED funs)) code) c.entry (op_read result) }
{
    if code < BVSMOD {
        return Ok((and_to_bvslt(code), c));
    }
    if code < EXT {
        return Ok((bvsmod_to_eq(code), c));
    }
    if code < RECORD_GET {
        return ext_to_or(c, code, funs);
    }
    record_get_to_zero_extend::<TESTED>(c, code, funs)
}

// An operator's code and its operand, with or without the tests of a text, a pattern and a function's number.
fn coded<'a, const TESTED: bool>(c: Cursor<'a>, funs: u32) -> Result<(Op<'a>, Cursor<'a>), Refusal>
    ensures { TakesBy TESTED (operator (count TESTED funs)) c.entry (op_read result) }
{
    if c.left() < 1 {
        return Err(Refusal::Misfit);
    }
    let code = c.body[c.at];
    let rest = Cursor { at: c.at + 1, ..c };
    operand::<TESTED>(rest, code, funs)
}

// An operator's code and its operand; `funs` is the number of earlier functions.
pub fn operator<'a>(c: Cursor<'a>, funs: u32) -> Result<(Op<'a>, Cursor<'a>), Refusal>
    ensures { Takes (operator funs) c.entry (op_read result) }
{
    coded::<true>(c, funs)
}

// An operator's code and its operand in an accepted body: a text, a pattern and a function's number are not tested again.
pub fn operator_again<'a>(c: Cursor<'a>) -> Result<(Op<'a>, Cursor<'a>), Refusal>
    ensures { TakesAgain (operator (2 ^ 32)) c.entry (op_read result) }
{
    coded::<false>(c, 0)
}
