//! Lock texts: their tokens.
#![tactic(auto)]

mod lexer;
mod refusal;
mod token;

pub use lexer::{MAX_TEXT, count_tokens, next_token, tokens_are_one};
pub use refusal::TextRefusal;
pub use token::{Mark, Placed, Token, Word};
