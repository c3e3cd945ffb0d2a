//! Expressions of a lock text, as postfix items.
#![tactic(auto)]

/// What joins two parts of an expression.
#[derive(Clone, Copy, Debug, PartialEq, Eq)]
pub enum Operator {
    Or,
    And,
    Equal,
    NotEqual,
    Less,
    LessEqual,
    Plus,
    Minus,
}

/// One place of an expression written in postfix order.
#[derive(Clone, Copy, Debug, PartialEq, Eq)]
pub enum Item {
    Number(u8),
    Variable(u8),
    Not,
    Operator(Operator),
}
