/// Why a certificate is refused.
#[derive(Clone, Copy)]
pub enum Refusal {
    /// The field that begins at this byte is missing or cut, or what begins there is surplus.
    Length {
        at: usize,
    },
    /// The kind byte is not the one that is wanted.
    KindByte,
    /// The state at this byte is none of the system's, or not above the one before it in its list.
    State {
        at: usize,
    },
    /// The class at this byte is none of the system's.
    Class {
        at: usize,
    },
    /// The start is not in the state list.
    StartUnlisted {
        state: u32,
    },
    /// A listed state is a clash.
    ListedClash {
        state: u32,
    },
    /// A listed state has a successor that is not listed.
    SuccessorUnlisted {
        state: u32,
        command: u8,
    },
    /// The process has a row at the state and does not wait there, or the state is not listed; or it has none where it
    /// should.
    RowsDiffer {
        process: u8,
        state: u32,
    },
    /// The class of the row is disabled at its state.
    ClassDisabled {
        process: u8,
        state: u32,
    },
    /// The command leads to a state where the process still waits, and the rank rule does not let it.
    RankRule {
        process: u8,
        state: u32,
        command: u8,
    },
}
