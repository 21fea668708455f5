//! The operators of typed expressions.

/// An operator in front of a number (X3.159-1989 3.3.3.3).
#[derive(Clone, Copy, Debug, PartialEq, Eq)]
pub enum Unary {
    Plus,
    Minus,
    Complement,
}

/// An operation on two numbers that gives a number of their type (3.3.5 to 3.3.7 and 3.3.10 to 3.3.12).
#[derive(Clone, Copy, Debug, PartialEq, Eq)]
pub enum Arithmetic {
    Multiply,
    Divide,
    Remainder,
    Add,
    Subtract,
    ShiftLeft,
    ShiftRight,
    BitAnd,
    BitXor,
    BitOr,
}

/// A comparison of two numbers or of two pointers, which gives 1 or 0 (3.3.8 and 3.3.9).
#[derive(Clone, Copy, Debug, PartialEq, Eq)]
pub enum Comparison {
    Less,
    Greater,
    LessEqual,
    GreaterEqual,
    Equal,
    NotEqual,
}

/// How far a pointer goes if 1 is added to it or subtracted from it: the size of what it points to, and the direction.
#[derive(Clone, Copy, Debug, PartialEq, Eq)]
pub struct Stride {
    pub size: u32,
    /// Whether it goes toward lower addresses.
    pub backward: bool,
}
