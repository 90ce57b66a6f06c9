// The refusals of a term file, with their numbers; and a refusal with the place that it is of.
#![tactic(auto)]

ghost use Rattle.std.specs.Prelude.{◌≡◌};
ghost use Rattle.refusal.specs.Numbers.{number};

// Why a file, a term or a buffer is refused, each with its number.
#[derive(Clone, Copy)]
pub enum Refusal {
    FileTooLong = 1,
    MemoryTooSmall = 2,
    CutShort = 3,
    UnknownMark = 4,
    Misfit = 5,
    NotUtf8 = 6,
    OutOfRange = 7,
    NoSuchRecord = 8,
    NotAscending = 9,
    NothingGiven = 10,
    SecondEnum = 11,
    TypeNotListed = 12,
    TooMany = 13,
    NotMember = 14,
    HighId = 15,
    NoAttribute = 16,
    NotRecord = 17,
    TypeNotDeclared = 18,
    NoArgument = 19,
    NoRoom = 20,
    WrongType = 21,
    HighString = 24,
    HighPattern = 25,
}

impl Refusal {
    // The number of the refusal.
    #[tactic(auto, unfolding(crate::specs::Numbers::number))]
    pub fn number(self) -> u32
        ensures { result ≡ number self }
    {
        self as u32
    }
}

// A refusal and what it is of: the number of a record or of a term, and the position of a code point in its text; 0 where it is of none.
#[derive(Clone, Copy)]
pub struct Refused {
    pub refusal: Refusal,
    pub place: usize,
    pub position: usize,
}
