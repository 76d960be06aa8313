// A refusal, and its number.
ghost use Rattle.std.specs.Prelude.{◌≡◌};
ghost use Rattle.refusals.specs.Refusal.{number};

#[derive(Clone, Copy, Debug, PartialEq, Eq)]
pub enum Refusal {
    NoSuchPort = 1,
    NotSelected = 2,
    AlreadySelected = 3,
    NotOurAddress = 4,
    ModeCannotChange = 5,
    Busy = 6,
    TransferOpenOrNot = 7,
    Malformed = 8,
    OutsideItsLimits = 9,
    SliceTooShort = 10,
    UnsoundState = 11,
    NoTrailer = 12,
    WrongMark = 13,
    WrongDistance = 14,
    NoDataField = 16,
    NotWhole = 17,
    WrongCount = 18,
    WrongFlags = 19,
    WrongCopy = 20,
    WrongSets = 21,
    WrongSet = 22,
    OutsideTheDrive = 23,
    OutOfSequence = 24,
    NotPadded = 25,
    WrongCrc = 26,
    UnlikeCopy0 = 27,
    BehindTheEnd = 28,
}

// The number that the callers in C are told.
impl From<Refusal> for u8 {
    ghost from_gives = { λ refusal n. n ≡ number refusal };

    fn from(refusal: Refusal) -> u8 {
        refusal as u8
    }
}
