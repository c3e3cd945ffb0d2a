//! Systems: the interface between those who know a lock and those who judge it.
#![tactic(auto)]

ghost use Rattle.std.specs.Prelude.{◌≡◌};
ghost use Rattle.system.specs.Transitions.{region_number};
ghost use Rattle.system.specs.Justice.{FairSystem, Lawful};

mod mask;
mod questions;

pub use mask::{Mask, pile};
pub use questions::{class_enabled, has_class, holder_mask, is_clash, waits};

/// Where a process stands in a state.
#[derive(Clone, Copy, Debug, PartialEq, Eq)]
pub enum Region {
    Idle = 0,
    Try = 1,
    Crit = 2,
    Exit = 3,
}

impl Region {
    /// The number of the region.
    pub fn number(self) -> u8
        ensures { result ≡ region_number self }
    {
        self as u8
    }
}

/// A lock as its judges see it. Asking changes nothing, and every number may be asked about.
pub trait System {
    ghost meaning: { Self → FairSystem };

    fn processes(&self) -> u8
        ensures { result ≡ (meaning self.now).steps.processes };

    fn classes(&self) -> u8
        ensures { result ≡ (meaning self.now).classes };

    fn commands(&self) -> u8
        ensures { result ≡ (meaning self.now).steps.commands };

    fn states(&self) -> u32
        ensures { result ≡ (meaning self.now).steps.states };

    fn start(&self) -> u32
        ensures { result ≡ (meaning self.now).steps.start };

    fn successor(&self, state: u32, command: u8) -> Option<u32>
        ensures { result ≡ (meaning self.now).steps.next state command };

    fn class_of(&self, command: u8) -> Option<u8>
        ensures { result ≡ (meaning self.now).class command };

    fn region(&self, state: u32, process: u8) -> Region
        ensures { result ≡ (meaning self.now).steps.region state process };

    ghost lawful: { (s : Self) → Lawful (meaning s) };
}
