//! The operators and the words of specifiers that tokens are.

ghost use Rattle.std.specs.Prelude.{◌≡◌};
ghost use Rattle.hs_syntax.specs.Operators.{binary_text, assign_text, prefix_text, postfix_text, access_text, storage_text, dropped_text, basic_text};
ghost use Rattle.hs_expr_parser.specs.Ahead.{spelled_so, binary_operators, assign_operators, prefix_operators, postfix_operators, accesses, storage_words, dropped_words, basic_words, binary_of, assign_of, prefix_of, postfix_of, access_of, storage_of, dropped_of, basic_of};

use hs_syntax::{
    Access, AssignOperator, Basic, BinaryOperator, Dropped, PostfixOperator, PrefixOperator,
    Storage,
};
use hs_tokens::{SourceToken, TokenKind, is_same_kind};

/// The operator between two operands of that spelling (X3.159-1989 3.3.5 to 3.3.14).
fn binary_spelled(text: &[u8]) -> Option<BinaryOperator>
    ensures { result ≡ spelled_so binary_text binary_operators text.now }
{
    if text == b"*".as_slice() {
        Some(BinaryOperator::Multiply)
    } else if text == b"/".as_slice() {
        Some(BinaryOperator::Divide)
    } else if text == b"%".as_slice() {
        Some(BinaryOperator::Remainder)
    } else if text == b"+".as_slice() {
        Some(BinaryOperator::Add)
    } else if text == b"-".as_slice() {
        Some(BinaryOperator::Subtract)
    } else if text == b"<<".as_slice() {
        Some(BinaryOperator::ShiftLeft)
    } else if text == b">>".as_slice() {
        Some(BinaryOperator::ShiftRight)
    } else if text == b"<".as_slice() {
        Some(BinaryOperator::Less)
    } else if text == b">".as_slice() {
        Some(BinaryOperator::Greater)
    } else if text == b"<=".as_slice() {
        Some(BinaryOperator::LessEqual)
    } else if text == b">=".as_slice() {
        Some(BinaryOperator::GreaterEqual)
    } else if text == b"==".as_slice() {
        Some(BinaryOperator::Equal)
    } else if text == b"!=".as_slice() {
        Some(BinaryOperator::NotEqual)
    } else if text == b"&".as_slice() {
        Some(BinaryOperator::BitAnd)
    } else if text == b"^".as_slice() {
        Some(BinaryOperator::BitXor)
    } else if text == b"|".as_slice() {
        Some(BinaryOperator::BitOr)
    } else if text == b"&&".as_slice() {
        Some(BinaryOperator::And)
    } else if text == b"||".as_slice() {
        Some(BinaryOperator::Or)
    } else {
        None
    }
}

/// The operator between two operands that the token is (X3.159-1989 3.3.5 to 3.3.14).
pub(crate) fn binary_of(source: &SourceToken) -> Option<BinaryOperator>
    ensures { result ≡ binary_of source.now }
{
    if is_same_kind(source.token.kind, TokenKind::Punctuator) {
        binary_spelled(source.token.text.items())
    } else {
        None
    }
}

/// The operator of an assignment of that spelling (X3.159-1989 3.3.16).
fn assign_spelled(text: &[u8]) -> Option<AssignOperator>
    ensures { result ≡ spelled_so assign_text assign_operators text.now }
{
    if text == b"=".as_slice() {
        Some(AssignOperator::Plain)
    } else if text == b"*=".as_slice() {
        Some(AssignOperator::Multiply)
    } else if text == b"/=".as_slice() {
        Some(AssignOperator::Divide)
    } else if text == b"%=".as_slice() {
        Some(AssignOperator::Remainder)
    } else if text == b"+=".as_slice() {
        Some(AssignOperator::Add)
    } else if text == b"-=".as_slice() {
        Some(AssignOperator::Subtract)
    } else if text == b"<<=".as_slice() {
        Some(AssignOperator::ShiftLeft)
    } else if text == b">>=".as_slice() {
        Some(AssignOperator::ShiftRight)
    } else if text == b"&=".as_slice() {
        Some(AssignOperator::BitAnd)
    } else if text == b"^=".as_slice() {
        Some(AssignOperator::BitXor)
    } else if text == b"|=".as_slice() {
        Some(AssignOperator::BitOr)
    } else {
        None
    }
}

/// The operator of an assignment that the token is (X3.159-1989 3.3.16).
pub(crate) fn assign_of(source: &SourceToken) -> Option<AssignOperator>
    ensures { result ≡ assign_of source.now }
{
    if is_same_kind(source.token.kind, TokenKind::Punctuator) {
        assign_spelled(source.token.text.items())
    } else {
        None
    }
}

/// The operator in front of an operand of that spelling (X3.159-1989 3.3.3).
fn prefix_spelled(text: &[u8]) -> Option<PrefixOperator>
    ensures { result ≡ spelled_so prefix_text prefix_operators text.now }
{
    if text == b"++".as_slice() {
        Some(PrefixOperator::Increment)
    } else if text == b"--".as_slice() {
        Some(PrefixOperator::Decrement)
    } else if text == b"&".as_slice() {
        Some(PrefixOperator::Address)
    } else if text == b"*".as_slice() {
        Some(PrefixOperator::Dereference)
    } else if text == b"+".as_slice() {
        Some(PrefixOperator::Plus)
    } else if text == b"-".as_slice() {
        Some(PrefixOperator::Minus)
    } else if text == b"~".as_slice() {
        Some(PrefixOperator::Complement)
    } else if text == b"!".as_slice() {
        Some(PrefixOperator::Not)
    } else {
        None
    }
}

/// The operator in front of an operand that the token is (X3.159-1989 3.3.3).
pub(crate) fn prefix_of(source: &SourceToken) -> Option<PrefixOperator>
    ensures { result ≡ prefix_of source.now }
{
    if is_same_kind(source.token.kind, TokenKind::Punctuator) {
        prefix_spelled(source.token.text.items())
    } else {
        None
    }
}

/// The operator after an operand of that spelling (X3.159-1989 3.3.2.4).
fn postfix_spelled(text: &[u8]) -> Option<PostfixOperator>
    ensures { result ≡ spelled_so postfix_text postfix_operators text.now }
{
    if text == b"++".as_slice() {
        Some(PostfixOperator::Increment)
    } else if text == b"--".as_slice() {
        Some(PostfixOperator::Decrement)
    } else {
        None
    }
}

/// The operator after an operand that the token is (X3.159-1989 3.3.2.4).
pub(crate) fn postfix_of(source: &SourceToken) -> Option<PostfixOperator>
    ensures { result ≡ postfix_of source.now }
{
    if is_same_kind(source.token.kind, TokenKind::Punctuator) {
        postfix_spelled(source.token.text.items())
    } else {
        None
    }
}

/// The way to a member of that spelling (X3.159-1989 3.3.2.3).
fn access_spelled(text: &[u8]) -> Option<Access>
    ensures { result ≡ spelled_so access_text accesses text.now }
{
    if text == b".".as_slice() {
        Some(Access::Dot)
    } else if text == b"->".as_slice() {
        Some(Access::Arrow)
    } else {
        None
    }
}

/// The way to a member that the token is (X3.159-1989 3.3.2.3).
pub(crate) fn access_of(source: &SourceToken) -> Option<Access>
    ensures { result ≡ access_of source.now }
{
    if is_same_kind(source.token.kind, TokenKind::Punctuator) {
        access_spelled(source.token.text.items())
    } else {
        None
    }
}

/// The storage word of that spelling that is kept (X3.159-1989 3.5.1).
fn storage_spelled(text: &[u8]) -> Option<Storage>
    ensures { result ≡ spelled_so storage_text storage_words text.now }
{
    if text == b"typedef".as_slice() {
        Some(Storage::Typedef)
    } else if text == b"extern".as_slice() {
        Some(Storage::Extern)
    } else if text == b"static".as_slice() {
        Some(Storage::Static)
    } else {
        None
    }
}

/// The storage word that is kept and that the token is (X3.159-1989 3.5.1).
pub(crate) fn storage_of(source: &SourceToken) -> Option<Storage>
    ensures { result ≡ storage_of source.now }
{
    if is_same_kind(source.token.kind, TokenKind::Identifier) {
        storage_spelled(source.token.text.items())
    } else {
        None
    }
}

/// The word of that spelling without a meaning here (X3.159-1989 3.5.1, 3.5.3).
fn dropped_spelled(text: &[u8]) -> Option<Dropped>
    ensures { result ≡ spelled_so dropped_text dropped_words text.now }
{
    if text == b"auto".as_slice() {
        Some(Dropped::Auto)
    } else if text == b"register".as_slice() {
        Some(Dropped::Register)
    } else if text == b"const".as_slice() {
        Some(Dropped::Const)
    } else if text == b"volatile".as_slice() {
        Some(Dropped::Volatile)
    } else if text == b"pascal".as_slice() {
        Some(Dropped::Pascal)
    } else {
        None
    }
}

/// The word without a meaning here that the token is (X3.159-1989 3.5.1, 3.5.3).
pub(crate) fn dropped_of(source: &SourceToken) -> Option<Dropped>
    ensures { result ≡ dropped_of source.now }
{
    if is_same_kind(source.token.kind, TokenKind::Identifier) {
        dropped_spelled(source.token.text.items())
    } else {
        None
    }
}

/// The word of a basic type of that spelling (X3.159-1989 3.5.2).
fn basic_spelled(text: &[u8]) -> Option<Basic>
    ensures { result ≡ spelled_so basic_text basic_words text.now }
{
    if text == b"void".as_slice() {
        Some(Basic::Void)
    } else if text == b"char".as_slice() {
        Some(Basic::Char)
    } else if text == b"short".as_slice() {
        Some(Basic::Short)
    } else if text == b"int".as_slice() {
        Some(Basic::Int)
    } else if text == b"long".as_slice() {
        Some(Basic::Long)
    } else if text == b"signed".as_slice() {
        Some(Basic::Signed)
    } else if text == b"unsigned".as_slice() {
        Some(Basic::Unsigned)
    } else {
        None
    }
}

/// The word of a basic type that the token is (X3.159-1989 3.5.2).
pub(crate) fn basic_of(source: &SourceToken) -> Option<Basic>
    ensures { result ≡ basic_of source.now }
{
    if is_same_kind(source.token.kind, TokenKind::Identifier) {
        basic_spelled(source.token.text.items())
    } else {
        None
    }
}
