//! Identifiers and punctuators among tokens.

ghost use Rattle.std.specs.Prelude.{◌≡◌};
ghost use Rattle.hs_tokens.specs.Marks.{is_same_kind, is_identifier, is_mark};

use crate::token::{Token, TokenKind};

/// Whether the two kinds are one.
pub fn is_same_kind(first: TokenKind, second: TokenKind) -> bool
    ensures { result ≡ is_same_kind first second }
{
    matches!(
        (first, second),
        (TokenKind::Identifier, TokenKind::Identifier)
            | (TokenKind::Number, TokenKind::Number)
            | (TokenKind::Character, TokenKind::Character)
            | (TokenKind::Literal, TokenKind::Literal)
            | (TokenKind::Punctuator, TokenKind::Punctuator)
    )
}

/// Whether the token is an identifier or a keyword.
///
/// Example: `x` and `while` are, `1` and `;` are not.
pub fn is_identifier(token: &Token) -> bool
    ensures { result ≡ is_identifier token.now }
{
    is_same_kind(token.kind, TokenKind::Identifier)
}

/// Whether the token is the punctuator of these bytes.
///
/// Example: the token `;` is the mark `;`, and the string literal `";"` is not.
pub fn is_mark(mark: &[u8], token: &Token) -> bool
    ensures { result ≡ is_mark mark.now token.now }
{
    is_same_kind(token.kind, TokenKind::Punctuator) && token.text.items() == mark
}
