//! The program record.
ghost use Rattle.declarations.specs.Frames.{frame};
ghost use Rattle.lock_program.specs.Storage.{Roomy, FewEnough, Sound};

use super::stored::{StoredAssignment, StoredCommand};
use declarations::Declarations;
use expression::Item;

/// A lock program: its declarations, the count of its classes, its commands and their assignments, and the postfix items
/// of all guards and right sides.
// Kept as arrays with counts: the record of a program lies in fixed memory, and nothing of it is allocated.
#[derive(Drop)]
pub struct LockProgram {
    pub(crate) declarations: Declarations,
    pub(crate) classes: u8,
    pub(crate) commands: usize,
    pub(crate) table: [StoredCommand; 64],
    pub(crate) assignments: usize,
    pub(crate) assigned: [StoredAssignment; 4096],
    pub(crate) held: usize,
    pub(crate) code: [Item; 4096],
    ghost roomy: { Roomy table assigned code },
    ghost few: { FewEnough commands assignments held },
    ghost sound: { ∥ Sound (frame declarations) classes commands table assignments assigned held code ∥₁ },
}
