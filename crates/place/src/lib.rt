//! Where a refusal points.
#![tactic(auto)]

ghost use Rattle.std.specs.Prelude.{◌≡◌};
ghost use Rattle.place.specs.Places.{place};

/// Where a fault lies: a process, a byte or a state, and a command. Parts that the fault does not name are 0.
#[derive(Clone, Copy, Debug, PartialEq, Eq)]
pub struct Place {
    pub process: u8,
    pub index: usize,
    pub command: u8,
}

impl Place {
    /// The place with these parts.
    pub fn new(process: u8, index: usize, command: u8) -> Place
        ensures { result ≡ place process index command }
    {
        Place {
            process,
            index,
            command,
        }
    }
}
