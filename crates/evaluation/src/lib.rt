//! Expressions in postfix order, worked out over the operand stack, and the remainder that an assignment takes.
#![tactic(auto)]

ghost use Rattle.std.specs.Prelude.{◌≡◌, ◌&&◌, [], ◌∷◌, length, pos, if◌then◌else◌, Some, None, IsTrue, MatchOption};
ghost use Rattle.stack.specs.Held.{held, places};
ghost use Rattle.expression.specs.Tree.{applied as joint, denied as inverse, truth, is_true};
ghost use Rattle.step_rule.specs.Rule.{remainder as least_remainder};
ghost use Rattle.evaluation.specs.Postfix.{small, pushed, stepped, worked_out, GivesValues};

use expression::{Item, Operator};
use stack::Stack;

/// The least non-negative remainder of `x` by one more than the maximum.
pub fn remainder(x: i32, maximum: u8) -> u8
    ensures { result ≡ least_remainder x maximum }
{
    x.rem_euclid(i32::from(maximum) + 1) as u8
}

/// Whether a value counts as true.
pub fn is_truth(a: i32) -> bool
    ensures { result ≡ is_true a }
{
    a != 0
}

fn truth_of(b: bool) -> i32
    ensures { result ≡ truth b }
{
    i32::from(b)
}

fn is_small(a: i32) -> bool
    ensures { result ≡ small a }
{
    (-8160..=8160).contains(&a)
}

/// What the operator makes of two small operands.
fn joined(operator: Operator, a: i32, b: i32) -> i32
    requires left { IsTrue (small a) }
    requires right { IsTrue (small b) }
    ensures { result ≡ joint operator a b }
{
    match operator {
        Operator::Or => truth_of(is_truth(a) || is_truth(b)),
        Operator::And => truth_of(is_truth(a) && is_truth(b)),
        Operator::Equal => truth_of(a == b),
        Operator::NotEqual => truth_of(a != b),
        Operator::Less => truth_of(a < b),
        Operator::LessEqual => truth_of(a <= b),
        Operator::Plus => a + b,
        Operator::Minus => a - b,
    }
}

/// What the operator makes of two operands, where both are small.
fn applied(operator: Operator, a: i32, b: i32) -> Option<i32>
    ensures { result ≡ (if small a && small b then Some (joint operator a b) else None) }
{
    (is_small(a) && is_small(b)).then(|| joined(operator, a, b))
}

/// One operand more, or `None` where the stack is full.
fn push(stack: &mut Stack<'_, i32>, z: i32) -> Option<()>
    ensures kept { places stack.new ≡ places stack.old }
    ensures told { MatchOption result (pushed (places stack.old) z (held stack.old) ≡ None) (λ _. pushed (places stack.old) z (held stack.old) ≡ Some (held stack.new)) }
{
    stack.push(z).ok()
}

/// One item more is worked out, or `None` where that cannot be.
fn step(item: Item, values: &[u8], stack: &mut Stack<'_, i32>) -> Option<()>
    ensures kept { places stack.new ≡ places stack.old }
    ensures told { MatchOption result (stepped (places stack.old) values.now item (held stack.old) ≡ None) (λ _. stepped (places stack.old) values.now item (held stack.old) ≡ Some (held stack.new)) }
{
    match item {
        Item::Number(n) => push(stack, i32::from(n)),
        Item::Variable(v) => push(stack, i32::from(*values.get(usize::from(v))?)),
        Item::Not => {
            let a = stack.pop()?;
            push(stack, truth_of(!is_truth(a)))
        }
        Item::Operator(operator) => {
            let b = stack.pop()?;
            let a = stack.pop()?;
            push(stack, applied(operator, a, b)?)
        }
    }
}

/// The one operand left when the items are worked out in their order, or `None` where that cannot be. `room` is for the
/// operands; the items of an expression within the limits give its value over 32 places.
pub fn evaluated(code: &[Item], values: &[u8], room: &mut [i32]) -> Option<i32>
    ensures is { result ≡ worked_out (length room.old) values.now code.now (Some []) }
    ensures value { GivesValues code.now values.now (length room.old) result }
{
    let mut stack = Stack::new(room);
    for item in code {
        step(*item, values, &mut stack)?;
    }
    let value = stack.pop()?;
    stack.is_empty().then_some(value)
}
