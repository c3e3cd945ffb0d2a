//! Where the reading of a text's expressions stands.
ghost use Rattle.std.specs.Prelude.{◌≤◌};
ghost use Rattle.expression.specs.Tree.{max_items};

use expression::Item;

/// The most items of a text.
pub const MAX_ITEMS: usize = 4096;

/// The place in the text, the counts that have limits, and the items of the expressions so far.
#[derive(Drop)]
pub struct Reader {
    /// Where the next token is looked for.
    pub at: usize,
    /// How many numbers and variables the expression has so far.
    pub operands: usize,
    /// How many items the text has so far, each counted at its own token.
    pub counted: usize,
    /// How many items are written.
    pub written: usize,
    /// The items, those of each expression in postfix order.
    // Kept as an array: a refusal leaves each place at the number 0, and an `ArrayVec` says nothing of places past its length.
    pub items: [Item; MAX_ITEMS],
    ghost fits: { written ≤ counted },
    ghost room: { counted ≤ max_items },
}
