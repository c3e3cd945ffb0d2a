//! How commands lie in arrays.
ghost use Rattle.std.specs.Prelude.{◌≡◌};

use std::ops::Range;

/// A part of a list: from `start` up to, and without, `end`.
#[derive(Clone, Copy)]
pub struct Span {
    pub start: u16,
    pub end: u16,
}

impl Span {
    /// The places of the part.
    pub(crate) fn range(self) -> Range<usize>
        ensures start { result.start ≡ self.start }
        ensures end { result.end ≡ self.end }
    {
        usize::from(self.start)..usize::from(self.end)
    }
}

/// A variable, and the items of its right side.
#[derive(Clone, Copy)]
pub struct StoredAssignment {
    pub target: u8,
    pub source: Span,
}

/// Where a command leads: whose it is, from which location to which, and its class or none.
#[derive(Clone, Copy)]
pub struct Transition {
    pub process: u8,
    pub from: u8,
    pub to: u8,
    pub class: Option<u8>,
}

/// A command: where it leads, its guard's items, and its part of the assignments.
#[derive(Clone, Copy)]
pub struct StoredCommand {
    pub transition: Transition,
    pub guard: Span,
    pub assignments: Span,
}
