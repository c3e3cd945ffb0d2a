//! The names that a lock text declares.
#![tactic(auto)]

mod list;
mod table;

pub use list::{MAX_NAMES, NameList};
pub use table::Full;
