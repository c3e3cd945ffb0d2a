//! How tightly operators bind.
ghost use Rattle.std.specs.Prelude.{◌≡◌};
ghost use Rattle.expression_grammar.specs.Kinds.{rank};
ghost use Rattle.expression_reader.specs.Bindings.{rank_of};

use expression::Operator;

/// How tightly an operator binds, from `or` on, which binds least.
#[derive(Clone, Copy, PartialEq, Eq)]
pub(crate) enum Binding {
    Or,
    And,
    Test,
    Plus,
}

impl From<Operator> for Binding {
    ghost from_gives = { λ operator binding. rank_of binding ≡ rank operator };

    fn from(operator: Operator) -> Binding {
        match operator {
            Operator::Or => Binding::Or,
            Operator::And => Binding::And,
            Operator::Equal | Operator::NotEqual | Operator::Less | Operator::LessEqual => {
                Binding::Test
            }
            Operator::Plus | Operator::Minus => Binding::Plus,
        }
    }
}
