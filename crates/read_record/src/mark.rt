// The marks of records, two fixed bytes each.
ghost use Rattle.std.specs.Prelude.{◌≡◌, [], ◌∷◌};
ghost use Rattle.script_spec.specs.Fields.{is_typed, untyped};
ghost use Rattle.read_record.specs.Marks.{Marked};

// A record's mark.
#[derive(Clone, Copy)]
pub enum Kind {
    TB,
    TS,
    TV,
    TO,
    TC,
    TE,
    TX,
    TR,
    EN,
    UF,
    XV,
    XB,
    XN,
    XS,
    XE,
    XX,
    X0,
    X1,
    XC,
    XR,
    XA,
    IN,
}

// Whether a mark that begins with this byte has a type written behind its fields.
pub fn is_typed(a: u8) -> bool
    ensures { result ≡ is_typed a }
{
    a == b'Y'
}

// The first byte of the mark whose fields a mark repeats that begins with this byte.
pub fn untyped(a: u8) -> u8
    ensures { result ≡ untyped a }
{
    if is_typed(a) {
        return b'X';
    }
    a
}

// The marks of types.
fn type_kind(b: u8) -> Option<Kind>
    ensures { Marked (84 ∷ b ∷ []) result }
{
    match b {
        b'B' => Some(Kind::TB),
        b'S' => Some(Kind::TS),
        b'V' => Some(Kind::TV),
        b'O' => Some(Kind::TO),
        b'C' => Some(Kind::TC),
        b'E' => Some(Kind::TE),
        b'X' => Some(Kind::TX),
        b'R' => Some(Kind::TR),
        _ => None,
    }
}

// The marks of terms.
fn term_kind(b: u8) -> Option<Kind>
    ensures { Marked (88 ∷ b ∷ []) result }
{
    match b {
        b'V' => Some(Kind::XV),
        b'B' => Some(Kind::XB),
        b'N' => Some(Kind::XN),
        b'S' => Some(Kind::XS),
        b'E' => Some(Kind::XE),
        b'X' => Some(Kind::XX),
        b'0' => Some(Kind::X0),
        b'1' => Some(Kind::X1),
        b'C' => Some(Kind::XC),
        b'R' => Some(Kind::XR),
        b'A' => Some(Kind::XA),
        _ => None,
    }
}

// The kind of a mark that has no type written behind its fields, by its two bytes, or none.
pub fn kind_of(a: u8, b: u8) -> Option<Kind>
    ensures { Marked (a ∷ b ∷ []) result }
{
    match a {
        b'T' => type_kind(b),
        b'X' => term_kind(b),
        b'E' => match b {
            b'N' => Some(Kind::EN),
            _ => None,
        },
        b'U' => match b {
            b'F' => Some(Kind::UF),
            _ => None,
        },
        b'I' => match b {
            b'N' => Some(Kind::IN),
            _ => None,
        },
        _ => None,
    }
}
