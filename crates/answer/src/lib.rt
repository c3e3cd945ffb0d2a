//! What the program answers to a lock text.
#![tactic(auto)]

ghost use Rattle.std.specs.Prelude.{◌≡◌, Some};
ghost use Rattle.answer.specs.Line.{Answers, line};

use lock_text::{TextRefusal, count_tokens};
use std::fmt;

/// The answer to a text, which is printed as one line: of how many tokens it is made, or why it is refused.
#[derive(Clone, Copy)]
pub struct Answer {
    pub tokens: Result<usize, TextRefusal>,
}

impl fmt::Display for Answer {
    ghost output = { λ a. Some (line a) };

    fn fmt<W: fmt::Write>(&self, f: &mut fmt::Formatter<W>) -> fmt::Result {
        match self.tokens {
            Ok(count) => write!(f, "tokens {count}"),
            Err(refusal) => {
                let number = refusal.number();
                let index = refusal.index();
                write!(f, "refused {number} {index}")
            }
        }
    }
}

/// The answer to a text.
pub fn answer_to(text: &[u8]) -> Answer
    ensures { Answers text.now result }
{
    Answer {
        tokens: count_tokens(text),
    }
}
