//! Postfix items: whether they are those of an expression.
#![tactic(auto)]

ghost use Rattle.std.specs.Prelude.{◌≡◌, ◌≤◌, true, false, List, ◌∷◌, ◌==◌, MatchOption};
ghost use Rattle.expression.specs.Tree.{Tree};
ghost use Rattle.postfix.specs.Decoding.{goes_on, admitted, tree_of, IsExpression};

use expression::Item;

/// Whether the items are those of an expression over the first `variables` variables, within the limit on its operands.
pub fn is_expression(items: &[Item], variables: usize) -> bool
    ensures is { result ≡ admitted variables items.now }
    ensures only { result ≡ true → IsExpression variables items.now (tree_of items.now) }
    ensures all { (t : Tree) → IsExpression variables items.now t → (result ≡ true) × (tree_of items.now ≡ t) }
{
    read(items, variables).is_some_and(|read| read.depth == 1)
}

/// What is read when every item was, or `None` where one of them cannot come.
fn read(items: &[Item], variables: usize) -> Option<Progress>
    ensures { MatchOption result (admitted variables items.now ≡ false) (λ q. admitted variables items.now ≡ (q.depth == 1)) }
{
    let mut read = Progress {
        depth: 0,
        operands: 0,
    };
    for item in items {
        read = read.after(*item, variables)?;
    }
    Some(read)
}

/// What was read so far: how many expressions stand open, and how many operands they have.
#[derive(Clone, Copy)]
struct Progress {
    depth: usize,
    operands: usize,
    ghost few: { operands ≤ 32 },
    ghost deep: { depth ≤ operands },
}

impl Progress {
    /// What is read after one item more, or `None` where it cannot come.
    fn after(self, item: Item, variables: usize) -> Option<Progress>
        ensures { MatchOption result ((xs : List Item) → goes_on variables (item ∷ xs) self.depth self.operands ≡ false) (λ q. (xs : List Item) → goes_on variables (item ∷ xs) self.depth self.operands ≡ goes_on variables xs q.depth q.operands) }
    {
        let Progress { depth, operands } = self;
        match item {
            Item::Number(_) if operands < 32 => Some(Progress {
                depth: depth + 1,
                operands: operands + 1,
            }),
            Item::Variable(v) if usize::from(v) < variables && operands < 32 => Some(Progress {
                depth: depth + 1,
                operands: operands + 1,
            }),
            Item::Not if depth >= 1 => Some(self),
            Item::Operator(_) if depth >= 2 => Some(Progress {
                depth: depth - 1,
                operands,
            }),
            _ => None,
        }
    }
}
