//! Why a lock text is refused.
ghost use Rattle.std.specs.Prelude.{◌≡◌};
ghost use Rattle.lock_text.specs.Refusals.{refusal_number, refusal_index};

/// The first fault of a lock text, with the index of the byte where it stands.
#[derive(Clone, Copy, Debug, PartialEq, Eq)]
pub enum TextRefusal {
    /// The text has more than 16,384 bytes.
    TooLong,
    /// A byte that starts no token, or a token that is too long.
    Spelling(usize),
    /// A token that is not wanted, or one that is missing.
    Unwanted(usize),
    /// A number outside its range.
    OutOfRange(usize),
    /// A name that was declared before.
    Declared(usize),
    /// A name that is unknown or of the wrong sort.
    Unknown(usize),
    /// A variable that the same command assigned before.
    AssignedTwice(usize),
    /// A level or a count past its limit.
    PastLimit(usize),
    /// More states than a system may have.
    TooManyStates(usize),
}

impl TextRefusal {
    /// The number of the cause.
    pub fn number(&self) -> u8
        ensures { result ≡ refusal_number self.now }
    {
        // Kept as a match: `as u8` is for an enum whose cases hold no value.
        match self {
            TextRefusal::TooLong => 1,
            TextRefusal::Spelling(_) => 2,
            TextRefusal::Unwanted(_) => 3,
            TextRefusal::OutOfRange(_) => 4,
            TextRefusal::Declared(_) => 5,
            TextRefusal::Unknown(_) => 6,
            TextRefusal::AssignedTwice(_) => 7,
            TextRefusal::PastLimit(_) => 8,
            TextRefusal::TooManyStates(_) => 9,
        }
    }

    /// The index into the text.
    pub fn index(&self) -> usize
        ensures { result ≡ refusal_index self.now }
    {
        match self {
            TextRefusal::TooLong => 0,
            TextRefusal::Spelling(at)
            | TextRefusal::Unwanted(at)
            | TextRefusal::OutOfRange(at)
            | TextRefusal::Declared(at)
            | TextRefusal::Unknown(at)
            | TextRefusal::AssignedTwice(at)
            | TextRefusal::PastLimit(at)
            | TextRefusal::TooManyStates(at) => *at,
        }
    }
}
