//! Why the tokens of a unit are not parsed.

use hs_base::{Limit, NoMemory, Pos};
use std::alloc::AllocFailed;

/// Why tokens are no unit.
#[derive(Clone, Copy, Debug)]
pub enum ParseError {
    /// The nesting passes its limit at some token: `Depth` is the kind.
    Limit(Limit),
    /// They are not a unit; the place is that of the first external declaration that is wrong.
    Syntax(Pos),
    /// Memory was refused.
    NoMemory,
}

impl From<NoMemory> for ParseError {
    ghost use Rattle.std.specs.Prelude.{◌≡◌};
    ghost use Rattle.hs_decl_parser.specs.declared.parse_error.ParseError.TheVariants.{NoMemory as no_memory};

    ghost from_gives = { λ _ e. e ≡ no_memory };

    fn from(_refused: NoMemory) -> ParseError {
        ParseError::NoMemory
    }
}

impl<T: Drop> From<AllocFailed<T>> for ParseError {
    ghost use Rattle.std.specs.Prelude.{◌≡◌};
    ghost use Rattle.hs_decl_parser.specs.declared.parse_error.ParseError.TheVariants.{NoMemory as no_memory};

    ghost from_gives = { λ _ e. e ≡ no_memory };

    fn from(_refused: AllocFailed<T>) -> ParseError {
        ParseError::NoMemory
    }
}
