ghost use Rattle.std.specs.Prelude.{[], ◌∷◌};
ghost use Rattle.rank.specs.Kinds.{single_kind};
ghost use Rattle.rank.specs.Orders.{single_lawful};

use super::Rank;
use byte_numbers::number_at;

/// A rank of one number.
#[derive(Clone, Copy, PartialEq, Eq, PartialOrd, Ord)]
pub struct Single(pub u32);

impl Rank for Single {
    ghost kind = { single_kind };

    ghost lawful = { single_lawful };

    ghost value = { λ r. r.0 ∷ [] };

    fn kind_byte() -> u8 {
        1
    }

    fn numbers() -> u8 {
        1
    }

    fn read(bytes: &[u8], at: usize) -> Option<Single> {
        Some(Single(number_at(bytes, at)?))
    }

    // Kept in both types: the two tests are members of the interface of ranks, and its definitions are over lists of numbers.
    fn is_below(&self, other: &Single) -> bool {
        self < other
    }

    fn is_same(&self, other: &Single) -> bool {
        self == other
    }
}
