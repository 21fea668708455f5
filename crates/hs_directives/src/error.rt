//! The refusals of reading, each with its place if it has one.

ghost use Rattle.std.specs.Prelude.{◌≡◌};
ghost use Rattle.hs_directives.specs.declared.error.ReadError.TheVariants.{NoMemory as no_memory};

use hs_base::{Bytes, Pos};
use std::alloc::{AllocError, AllocFailed};

/// Why a text has no tokens (X3.159-1989 3.1).
#[derive(Clone, Copy, Debug)]
pub enum ScanKind {
    /// A byte that no token may have there, or a malformed escape.
    BadByte,
    /// A comment that the text leaves open.
    OpenComment,
    /// A literal or a character constant that is not closed on its line.
    OpenString,
}

/// Why a macro is refused (X3.159-1989 3.8.3).
#[derive(Clone, Copy, Debug)]
pub enum MacroKind {
    /// A `#define` that is no definition, or another one than stands. At its `#`.
    BadMacro,
    /// An invocation with the wrong number of arguments, or one that is open at the end of its run. At the macro's name.
    ArgCount,
}

/// Why the named files give no units: the first refusal.
#[derive(Debug, Drop)]
pub enum ReadError {
    /// A text is refused by the scanner, at that place.
    Scan(ScanKind, Pos),
    /// A macro is refused, at that place.
    Macro(MacroKind, Pos),
    /// A directive that is reached has no form, or is `#error`. At its `#`.
    BadDirective(Pos),
    /// A section that its file leaves open. At the `#` of the first one.
    OpenIf(Pos),
    /// An `#include` that would open the 33rd level. At its `#`.
    IncludeDepth(Pos),
    /// A condition that is reached is no constant expression, or divides by 0. At its `#`.
    BadCondition(Pos),
    /// There is no file of that name. The files' count of misses rose.
    Missing(Bytes),
    /// The file of that name could not be read. The files' count of faults rose.
    ReadFault(Bytes),
    /// A quantity passed its limit.
    Limit(hs_base::Limit),
    /// Memory was refused.
    NoMemory,
}

impl From<AllocError> for ReadError {
    ghost from_gives = { λ _ e. e ≡ no_memory };

    fn from(_refused: AllocError) -> ReadError {
        ReadError::NoMemory
    }
}

impl<T: Drop> From<AllocFailed<T>> for ReadError {
    ghost from_gives = { λ _ e. e ≡ no_memory };

    fn from(_refused: AllocFailed<T>) -> ReadError {
        ReadError::NoMemory
    }
}
