//! What keeps a part of a lock program out of a record.

/// Why a part of a lock program is not taken on.
#[derive(Clone, Copy, Debug, PartialEq, Eq)]
pub enum Unfit {
    /// The declarations are not within their limits.
    Declarations,
    /// The classes are too many.
    Classes,
    /// The classes come after commands.
    Late,
    /// There is no room for one more command, or one of its numbers is out of range.
    Command,
    /// There is no such variable.
    Variable,
    /// There is no command, or the last one assigns the variable already.
    Assigned,
    /// There is no room for the items.
    Items,
    /// The items are not those of an expression within the limits.
    Expression,
}
