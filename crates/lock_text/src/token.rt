//! The tokens of a lock text.
ghost use Rattle.std.specs.Prelude.{◌≡◌, length};
ghost use Rattle.lock_text.specs.Spelling.{mark_spelling};

/// The reserved words.
#[derive(Clone, Copy, Debug, PartialEq, Eq)]
pub enum Word {
    Procs,
    Vars,
    Locs,
    Classes,
    Cmds,
    Idle,
    Try,
    Crit,
    Exit,
    None,
    And,
    Or,
    Not,
}

/// The marks: `( ) + - = == != < <= : ; ,`
#[derive(Clone, Copy, Debug, PartialEq, Eq)]
pub enum Mark {
    Open,
    Close,
    Plus,
    Minus,
    Assign,
    Equal,
    NotEqual,
    Less,
    LessEqual,
    Colon,
    Semicolon,
    Comma,
}

impl Mark {
    /// How many bytes the mark has.
    pub fn width(self) -> usize
        ensures { result ≡ length (mark_spelling self) }
    {
        // Kept as a match: two marks may have one width, so no discriminant is it.
        match self {
            Mark::Equal | Mark::NotEqual | Mark::LessEqual => 2,
            _ => 1,
        }
    }
}

/// A token. Names and numbers borrow their spelling from the text.
#[derive(Clone, Copy, Debug, PartialEq, Eq)]
pub enum Token<'a> {
    Name(&'a [u8]),
    Number(&'a [u8]),
    Word(Word),
    Mark(Mark),
}

/// A token, or what it is to its reader, and the place where it stands: from `start` up to `end`.
#[derive(Clone, Copy, Debug, PartialEq, Eq)]
pub struct Placed<T> {
    pub token: T,
    pub start: usize,
    pub end: usize,
}
