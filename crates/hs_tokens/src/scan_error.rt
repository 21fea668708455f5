//! Why a text has no tokens.

ghost use Rattle.std.specs.Prelude.{◌≡◌};
ghost use Rattle.hs_tokens.specs.declared.scan_error.ScanError.TheVariants.{NoMemory as no_memory};

use hs_base::{Limit, Pos};
use std::alloc::{AllocError, AllocFailed};

/// Why a text has no tokens: the first place where, from its start.
#[derive(Clone, Copy, Debug)]
pub enum ScanError {
    /// A byte that no token may have there, at that byte; a malformed escape or one that exceeds a byte, at its backslash; a
    /// character constant of more than four bytes, at its opening quote; a counted string of more than 255 bytes, at the
    /// backslash of its `\p`.
    BadByte(Pos),
    /// The text ends inside a comment. At the comment's first byte.
    OpenComment(Pos),
    /// A literal or a character constant is not closed on its line, or a character constant is empty. At its opening quote.
    OpenString(Pos),
    /// The text has more tokens than there is room for.
    Limit(Limit),
    /// Memory was refused.
    NoMemory,
}

impl From<AllocError> for ScanError {
    ghost from_gives = { λ _ e. e ≡ no_memory };

    fn from(_refused: AllocError) -> ScanError {
        ScanError::NoMemory
    }
}

impl<T: Drop> From<AllocFailed<T>> for ScanError {
    ghost from_gives = { λ _ e. e ≡ no_memory };

    fn from(_refused: AllocFailed<T>) -> ScanError {
        ScanError::NoMemory
    }
}
