//! Tokens.

ghost use Rattle.std.specs.Prelude.{◌≡◌, IfOk};

use crate::text::Text;
use hs_base::Pos;
use std::alloc::AllocError;

/// What a token is (X3.159-1989 3.1). A keyword is an identifier here.
#[derive(Clone, Copy)]
pub enum TokenKind {
    /// An identifier or a keyword (3.1.1, 3.1.2).
    Identifier,
    /// A preprocessing number (3.1.8).
    Number,
    /// A character constant (3.1.3.4).
    Character,
    /// A string literal (3.1.4).
    Literal,
    /// An operator or a punctuator (3.1.5, 3.1.6).
    Punctuator,
}

/// A token of a text.
#[derive(Drop)]
pub struct Token {
    /// Its bytes, without splices.
    pub text: Text,
    /// The place of its first byte.
    pub pos: Pos,
    pub kind: TokenKind,
    /// No token stands before it on its line.
    pub first: bool,
    /// White space, a comment or a line's end stands directly before it.
    pub spaced: bool,
}

impl Token {
    /// A token with the same fields, whose text shares its bytes.
    pub fn copied(&self) -> Result<Token, AllocError>
        ensures { IfOk result (λ copy. copy ≡ self.now) }
    {
        Ok(Token {
            kind: self.kind,
            text: self.text.copied()?,
            pos: self.pos,
            first: self.first,
            spaced: self.spaced,
        })
    }
}

/// Whether a token stands in a source as it is, or comes from a macro.
#[derive(Clone, Copy, Debug, PartialEq, Eq)]
pub enum Origin {
    Plain,
    Macro,
}

/// A token of a unit, and where it comes from.
#[derive(Drop)]
pub struct SourceToken {
    pub token: Token,
    pub origin: Origin,
}
