//! Certificates as bytes: their fields, what they say, and the one right answer to each.
#![tactic(auto)]

ghost use Rattle.std.specs.Prelude.{◌≡◌};
ghost use Rattle.certificate_theory.specs.Claims.{OneRefusal, AcceptedOrRefused, CertifiedIsCorrect, ReadIsWritten};
ghost use Rattle.certificate_theory.specs.Refusals.{number, placed};

mod clause;
mod limits;
mod point;
mod refusal;

pub use clause::Clause;
pub use limits::Limits;
pub use place::Place;
pub use point::{Point, Spot};
pub use refusal::Refusal;

impl Refusal {
    /// The answer number.
    pub fn number(self) -> u8
        ensures { result ≡ number self }
    {
        // Kept as a match: `as u8` is for an enum whose cases hold no value.
        match self {
            Refusal::Length { .. } => 21,
            Refusal::KindByte => 22,
            Refusal::State { .. } => 23,
            Refusal::Class { .. } => 24,
            Refusal::StartUnlisted { .. } => 25,
            Refusal::ListedClash { .. } => 26,
            Refusal::SuccessorUnlisted { .. } => 27,
            Refusal::RowsDiffer { .. } => 28,
            Refusal::ClassDisabled { .. } => 29,
            Refusal::RankRule { .. } => 30,
        }
    }

    /// The place, with 0 for each part that the refusal does not name.
    pub fn place(self) -> Place
        ensures { result ≡ placed self }
    {
        match self {
            Refusal::KindByte => Place::new(0, 0, 0),
            Refusal::Length { at } | Refusal::State { at } | Refusal::Class { at } => {
                Place::new(0, at, 0)
            }
            Refusal::StartUnlisted { state } | Refusal::ListedClash { state } => {
                Place::new(0, state as usize, 0)
            }
            Refusal::SuccessorUnlisted { state, command } => {
                Place::new(0, state as usize, command)
            }
            Refusal::RowsDiffer { process, state } | Refusal::ClassDisabled { process, state } => {
                Place::new(process, state as usize, 0)
            }
            Refusal::RankRule {
                process,
                state,
                command,
            } => Place::new(process, state as usize, command),
        }
    }
}

/// At most one refusal is right.
pub fn one_refusal()
    ensures { OneRefusal }
{}

/// Bytes that certify a system are not refused.
pub fn accepted_or_refused()
    ensures { AcceptedOrRefused }
{}

/// For every lawful system and every kind of rank with its laws, bytes that certify the system show that no run reaches
/// a clash and that no just run leaves a process trying for ever.
pub fn certified_is_correct()
    ensures { CertifiedIsCorrect }
{}

/// Bytes that read as a certificate are the bytes of what they say.
pub fn read_is_written()
    ensures { ReadIsWritten }
{}
