//! Ranks: what a certificate's rows carry, behind one interface for all kinds.
#![tactic(auto)]

ghost use Rattle.std.specs.Prelude.{◌≡◌, ℕ, ◌+◌, ◌*◌, ◌<◌, ◌≤◌, true, ◌↔◌, List, length, Some, None};
ghost use Rattle.rank.specs.Kinds.{Kind, numbers_at};
ghost use Rattle.rank.specs.Laws.{LawfulKind};
ghost use Rattle.rank.specs.Rows.{Falls, with_numbers};

mod pair;
mod single;

pub use pair::Pair;
pub use single::Single;

/// A kind of rank. Its numbers fix a rank, which is copied freely; asking changes nothing.
pub trait Rank: Copy {
    ghost kind: { Kind };

    ghost value: { Self → List ℕ };

    /// The kind byte of certificates with such ranks.
    fn kind_byte() -> u8
        ensures { result ≡ kind.byte };

    /// How many numbers of four bytes a rank has.
    fn numbers() -> u8
        ensures { result ≡ kind.numbers };

    /// The rank whose numbers stand from `at` on, or `None` where they are not all there.
    fn read(bytes: &[u8], at: usize) -> Option<Self>
        ensures { elim result [ Some rank ↦ (at + 4 * kind.numbers ≤ length bytes.now) × (value rank ≡ numbers_at bytes.now at kind.numbers) | None ↦ length bytes.now < at + 4 * kind.numbers ] };

    fn is_below(&self, other: &Self) -> bool
        ensures { result ≡ kind.below (value self.now) (value other.now) };

    fn is_same(&self, other: &Self) -> bool
        ensures { result ≡ kind.same (value self.now) (value other.now) };

    ghost lawful: { LawfulKind kind };
}

/// A row of a certificate: at `state` the process waits, the class is enabled, and the rank is as told.
#[derive(Clone, Copy)]
pub struct Row<R> {
    pub state: u32,
    pub class: u8,
    pub rank: R,
}

impl<R: Rank> Row<R> {
    /// Whether a command of the class `taken`, or of none, may lead from this row to `after`.
    pub fn falls_to(&self, after: &Row<R>, taken: Option<u8>) -> bool
        ensures { result ≡ true ↔ Falls R.kind (with_numbers R.value self.now) (with_numbers R.value after.now) (taken ≡ Some self.now.class) }
    {
        after.rank.is_below(&self.rank)
            || (after.rank.is_same(&self.rank)
                && after.class == self.class
                && taken != Some(self.class))
    }
}
