//! Reads the prelude of a straight program with the beginning of `main`, and its end.

ghost use Rattle.std.specs.Prelude.{◌≤◌, ◌↔◌, length, IsTrue, IfSome, IfNone};
ghost use Rattle.hs_checker.specs.Straight.Ends.{IsOpened, NotOpened, IsClosing};

use crate::straight::marks::marks;
use hs_tokens::SourceToken;

/// The prelude, a line for each prototype, and the beginning of `main`.
const OPENING: [&str; 40] = [
    "char",
    "*",
    "*",
    "NewHandle",
    "(",
    "long",
    "n",
    ")",
    ";",
    "void",
    "HLock",
    "(",
    "char",
    "*",
    "*",
    "h",
    ")",
    ";",
    "void",
    "HUnlock",
    "(",
    "char",
    "*",
    "*",
    "h",
    ")",
    ";",
    "int",
    "putchar",
    "(",
    "int",
    "c",
    ")",
    ";",
    "int",
    "main",
    "(",
    "void",
    ")",
    "{",
];

/// The end of `main`.
const CLOSING: [&str; 4] = ["return", "0", ";", "}"];

/// Reads the prelude and the beginning of `main`. The tokens after them.
pub(crate) fn after_opening(tokens: &[SourceToken]) -> Option<&[SourceToken]>
    ensures found { IfSome result (λ rest. IsOpened tokens.now rest.now) }
    ensures few { IfSome result (λ rest. length rest.now ≤ length tokens.now) }
    ensures none { IfNone result (NotOpened tokens.now) }
{
    marks(&OPENING, tokens)
}

/// Whether the tokens are the end of `main`, and nothing follows.
pub(crate) fn is_closing(tokens: &[SourceToken]) -> bool
    ensures { IsTrue result ↔ IsClosing tokens.now }
{
    match marks(&CLOSING, tokens) {
        Some(rest) => rest.is_empty(),
        None => false,
    }
}
