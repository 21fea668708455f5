//! Why a definition or an expansion is refused.

ghost use Rattle.std.specs.Prelude.{◌≡◌};
ghost use Rattle.hs_macros.specs.declared.error.MacroError.TheVariants.{NoMemory as no_memory};

use hs_base::{Limit, Pos};
use std::alloc::{AllocError, AllocFailed};

/// Why a definition or an expansion is refused.
#[derive(Clone, Copy, Debug)]
pub enum MacroError {
    /// The tokens after `define` are no definition, or another one of the name stands.
    BadMacro,
    /// An invocation has the wrong number of arguments, or no closing parenthesis in its run. At the macro's name, or at
    /// the outermost name if it arises in replaced text.
    ArgCount(Pos),
    /// The replacements, or the tokens that they put in place, passed what was left of their limit.
    Limit(Limit),
    /// Memory was refused.
    NoMemory,
}

impl From<AllocError> for MacroError {
    ghost from_gives = { λ _ e. e ≡ no_memory };

    fn from(_refused: AllocError) -> MacroError {
        MacroError::NoMemory
    }
}

impl<T: Drop> From<AllocFailed<T>> for MacroError {
    ghost from_gives = { λ _ e. e ≡ no_memory };

    fn from(_refused: AllocFailed<T>) -> MacroError {
        MacroError::NoMemory
    }
}
