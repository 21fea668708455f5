//! The operators of constant expressions but `?:`, and the precedences of those between two operands.

ghost use Rattle.std.specs.Prelude.{◌≡◌};
ghost use Rattle.hs_constants.specs.Conditions.{unary_of, binary_of, precedence_of};

use hs_tokens::{Token, is_mark};

/// An operator in front of its operand (X3.159-1989 3.3.3.3).
#[derive(Clone, Copy, Debug, PartialEq, Eq)]
pub enum Unary {
    Plus,
    Minus,
    Complement,
    Not,
}

/// An operator between two operands (X3.159-1989 3.3.5 to 3.3.14).
#[derive(Clone, Copy, Debug, PartialEq, Eq)]
pub enum Binary {
    Multiply,
    Divide,
    Remainder,
    Add,
    Subtract,
    ShiftLeft,
    ShiftRight,
    Less,
    Greater,
    LessEqual,
    GreaterEqual,
    Equal,
    NotEqual,
    BitAnd,
    BitXor,
    BitOr,
    And,
    Or,
}

/// The operator in front of an operand that the token is (X3.159-1989 3.3.3).
pub(crate) fn unary_of(token: &Token) -> Option<Unary>
    ensures { result ≡ unary_of token.now }
{
    if is_mark(b"+", token) {
        Some(Unary::Plus)
    } else if is_mark(b"-", token) {
        Some(Unary::Minus)
    } else if is_mark(b"~", token) {
        Some(Unary::Complement)
    } else if is_mark(b"!", token) {
        Some(Unary::Not)
    } else {
        None
    }
}

/// The operator between two operands that the token is (X3.159-1989 3.3.5 to 3.3.14).
pub(crate) fn binary_of(token: &Token) -> Option<Binary>
    ensures { result ≡ binary_of token.now }
{
    if is_mark(b"*", token) {
        Some(Binary::Multiply)
    } else if is_mark(b"/", token) {
        Some(Binary::Divide)
    } else if is_mark(b"%", token) {
        Some(Binary::Remainder)
    } else if is_mark(b"+", token) {
        Some(Binary::Add)
    } else if is_mark(b"-", token) {
        Some(Binary::Subtract)
    } else if is_mark(b"<<", token) {
        Some(Binary::ShiftLeft)
    } else if is_mark(b">>", token) {
        Some(Binary::ShiftRight)
    } else if is_mark(b"<", token) {
        Some(Binary::Less)
    } else if is_mark(b">", token) {
        Some(Binary::Greater)
    } else if is_mark(b"<=", token) {
        Some(Binary::LessEqual)
    } else if is_mark(b">=", token) {
        Some(Binary::GreaterEqual)
    } else if is_mark(b"==", token) {
        Some(Binary::Equal)
    } else if is_mark(b"!=", token) {
        Some(Binary::NotEqual)
    } else if is_mark(b"&", token) {
        Some(Binary::BitAnd)
    } else if is_mark(b"^", token) {
        Some(Binary::BitXor)
    } else if is_mark(b"|", token) {
        Some(Binary::BitOr)
    } else if is_mark(b"&&", token) {
        Some(Binary::And)
    } else if is_mark(b"||", token) {
        Some(Binary::Or)
    } else {
        None
    }
}

/// How tightly the operator binds: 10 the tightest, 1 the loosest (X3.159-1989 3.3.5 to 3.3.14).
pub(crate) fn precedence_of(operator: Binary) -> u32
    ensures { result ≡ precedence_of operator }
{
    match operator {
        Binary::Multiply | Binary::Divide | Binary::Remainder => 10,
        Binary::Add | Binary::Subtract => 9,
        Binary::ShiftLeft | Binary::ShiftRight => 8,
        Binary::Less | Binary::Greater | Binary::LessEqual | Binary::GreaterEqual => 7,
        Binary::Equal | Binary::NotEqual => 6,
        Binary::BitAnd => 5,
        Binary::BitXor => 4,
        Binary::BitOr => 3,
        Binary::And => 2,
        Binary::Or => 1,
    }
}
