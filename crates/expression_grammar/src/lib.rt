//! The grammar of expressions, their reading from a stream of tokens, and what the two have to do with each other.
#![tactic(auto)]

mod kind;
mod laws;

pub use kind::Kind;
pub use laws::{first_fault_decides, reading_is_complete, reading_is_sound, trees_are_one};
