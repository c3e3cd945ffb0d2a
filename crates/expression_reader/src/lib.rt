//! Reads an expression of a lock text, and writes its items in postfix order.
#![tactic(auto)]

mod binding;
mod entry;
mod look;
mod number;
mod parse;
mod reader;
mod source;
mod steps;

pub use entry::MAX_LEVELS;
pub use number::{MAX_NUMBER, byte_value};
pub use reader::{MAX_ITEMS, Reader};
pub use steps::MAX_OPERANDS;
