//! What a token is to an expression.
ghost use Rattle.std.specs.Prelude.{◌≡◌};
ghost use Rattle.expression_grammar.specs.Kinds.{kind_of_word, kind_of_mark};

use expression::Operator;
use lock_text::{Mark, Word};

/// What the next token is to an expression.
#[derive(Clone, Copy, PartialEq, Eq, Debug)]
pub enum Kind {
    /// A number up to 255.
    Number(u8),
    /// A number above 255.
    Large,
    /// A variable, by its number.
    Variable(u8),
    /// A name that is no variable.
    Unknown,
    /// An operator between two parts.
    Operator(Operator),
    /// The word `not`.
    Not,
    /// The mark `(`.
    Open,
    /// The mark `)`.
    Close,
    /// Another token, or the end of the text.
    Other,
    /// A fault of spelling.
    Misspelt,
}

impl From<Word> for Kind {
    ghost from_gives = { λ word kind. kind ≡ kind_of_word word };

    /// What a reserved word is to an expression.
    fn from(word: Word) -> Kind {
        match word {
            Word::And => Kind::Operator(Operator::And),
            Word::Or => Kind::Operator(Operator::Or),
            Word::Not => Kind::Not,
            _ => Kind::Other,
        }
    }
}

impl From<Mark> for Kind {
    ghost from_gives = { λ mark kind. kind ≡ kind_of_mark mark };

    /// What a mark is to an expression.
    fn from(mark: Mark) -> Kind {
        match mark {
            Mark::Open => Kind::Open,
            Mark::Close => Kind::Close,
            Mark::Plus => Kind::Operator(Operator::Plus),
            Mark::Minus => Kind::Operator(Operator::Minus),
            Mark::Equal => Kind::Operator(Operator::Equal),
            Mark::NotEqual => Kind::Operator(Operator::NotEqual),
            Mark::Less => Kind::Operator(Operator::Less),
            Mark::LessEqual => Kind::Operator(Operator::LessEqual),
            _ => Kind::Other,
        }
    }
}
