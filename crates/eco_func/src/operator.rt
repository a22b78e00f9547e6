//! The operators of expressions.

/// `&`, `^` and `|`, the strongest first.
#[derive(Clone, Copy, Debug, Drop, PartialEq, Eq)]
pub enum Operator {
    And,
    Xor,
    Or,
}
