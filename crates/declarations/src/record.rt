//! The declarations' own record.
ghost use Rattle.std.specs.Prelude.{◌≡◌};
ghost use Rattle.step_rule.specs.Codes.{WellFormed, state_count};
ghost use Rattle.declarations.specs.Shape.{frame_of, Roomy, FewEnough};

use system::Region;

/// What a lock declares before its classes and commands: the count of processes; the maximum and the initial value of
/// each variable; the region of each location; and how many states that makes.
// Kept as arrays with counts: the record lies in fixed memory, and its limits are those of the language.
#[derive(Clone, Copy)]
pub struct Declarations {
    pub(crate) processes: u8,
    pub(crate) variables: usize,
    pub(crate) maxima: [u8; 12],
    pub(crate) initials: [u8; 12],
    pub(crate) locations: usize,
    pub(crate) regions: [Region; 16],
    pub(crate) states: u32,
    ghost roomy: { Roomy maxima initials regions },
    ghost few: { FewEnough processes variables locations },
    ghost ok: { ∥ WellFormed (frame_of processes variables maxima initials locations regions) ∥₁ },
    ghost counted: { states ≡ state_count (frame_of processes variables maxima initials locations regions) },
}
