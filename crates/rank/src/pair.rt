ghost use Rattle.std.specs.Prelude.{[], ◌∷◌};
ghost use Rattle.rank.specs.Kinds.{pair_kind};
ghost use Rattle.rank.specs.Orders.{pair_lawful};

use super::Rank;
use byte_numbers::number_at;

/// A rank of two numbers, compared by the first, then the second.
#[derive(Clone, Copy, PartialEq, Eq, PartialOrd, Ord)]
pub struct Pair {
    pub first: u32,
    pub second: u32,
}

impl Rank for Pair {
    ghost kind = { pair_kind };

    ghost lawful = { pair_lawful };

    ghost value = { λ r. r.first ∷ r.second ∷ [] };

    fn kind_byte() -> u8 {
        2
    }

    fn numbers() -> u8 {
        2
    }

    fn read(bytes: &[u8], at: usize) -> Option<Pair> {
        let first = number_at(bytes, at)?;
        let second = number_at(bytes, at + 4)?;
        Some(Pair { first, second })
    }

    fn is_below(&self, other: &Pair) -> bool {
        self < other
    }

    fn is_same(&self, other: &Pair) -> bool {
        self == other
    }
}
