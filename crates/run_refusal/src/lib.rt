//! Why bytes are refused as a bad run of a system: the refusals with their numbers and places.
#![tactic(auto)]

ghost use Rattle.std.specs.Prelude.{◌≡◌};
ghost use Rattle.run_refusal.specs.Refusals.{number, placed};

pub use place::Place;

/// Why bytes are no bad run of a system.
#[derive(Clone, Copy, Debug, PartialEq, Eq)]
pub enum RunRefusal {
    /// 31: a field is missing or cut, or bytes follow the last field.
    WrongLength { at: usize },
    /// 32: the kind byte is neither 1 nor 2.
    WrongKind,
    /// 33: the process is not below the number of processes, or not 0 in a clash.
    WrongProcess,
    /// 34: the step byte is neither FF nor below the number of commands.
    WrongStep { at: usize },
    /// 35: the loop count is 0 in a lockout, or not 0 in a clash.
    WrongLoopCount { at: usize },
    /// 36: the step is disabled where it is taken.
    StepDisabled { step: usize, command: u8 },
    /// 37: the stem ends in a state that is no clash.
    NoClash { state: u32 },
    /// 38: the loop ends in another state than it began.
    LoopOpen { state: u32 },
    /// 39: the process does not wait at this loop state.
    NotWaiting { process: u8, state: u32 },
    /// 40: the class is neither disabled at a loop state nor taken in the loop.
    ClassNeglected { class: u8 },
}

impl RunRefusal {
    /// The number of the refusal.
    pub fn number(&self) -> u8
        ensures { result ≡ number self.now }
    {
        // Kept as a match: the variants hold values, so no cast tells their numbers.
        match self {
            RunRefusal::WrongLength { .. } => 31,
            RunRefusal::WrongKind => 32,
            RunRefusal::WrongProcess => 33,
            RunRefusal::WrongStep { .. } => 34,
            RunRefusal::WrongLoopCount { .. } => 35,
            RunRefusal::StepDisabled { .. } => 36,
            RunRefusal::NoClash { .. } => 37,
            RunRefusal::LoopOpen { .. } => 38,
            RunRefusal::NotWaiting { .. } => 39,
            RunRefusal::ClassNeglected { .. } => 40,
        }
    }

    /// The place of the refusal.
    pub fn place(&self) -> Place
        ensures { result ≡ placed self.now }
    {
        let nowhere = Place::new(0, 0, 0);
        match *self {
            RunRefusal::WrongLength { at }
            | RunRefusal::WrongStep { at }
            | RunRefusal::WrongLoopCount { at } => Place {
                index: at,
                ..nowhere
            },
            RunRefusal::WrongKind => nowhere,
            RunRefusal::WrongProcess => Place {
                index: 1,
                ..nowhere
            },
            RunRefusal::StepDisabled { step, command } => Place {
                index: step,
                command,
                ..nowhere
            },
            RunRefusal::NoClash { state } | RunRefusal::LoopOpen { state } => Place {
                index: state as usize,
                ..nowhere
            },
            RunRefusal::NotWaiting { process, state } => Place {
                process,
                index: state as usize,
                ..nowhere
            },
            RunRefusal::ClassNeglected { class } => Place {
                command: class,
                ..nowhere
            },
        }
    }
}
