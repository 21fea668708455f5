//! Why nothing was read.

use hs_base::NoMemory;
use std::alloc::{AllocError, AllocFailed};

/// Why nothing was read.
#[derive(Clone, Copy, Debug)]
pub enum ParseEnd {
    /// No expression starts there.
    NotExpr,
    /// Memory was refused.
    NoMemory,
}

impl From<NoMemory> for ParseEnd {
    ghost use Rattle.std.specs.Prelude.{◌≡◌};
    ghost use Rattle.hs_expr_parser.specs.declared.parse_end.ParseEnd.TheVariants.{NoMemory as no_memory};

    ghost from_gives = { λ _ e. e ≡ no_memory };

    fn from(_refused: NoMemory) -> ParseEnd {
        ParseEnd::NoMemory
    }
}

impl From<AllocError> for ParseEnd {
    ghost use Rattle.std.specs.Prelude.{◌≡◌};
    ghost use Rattle.hs_expr_parser.specs.declared.parse_end.ParseEnd.TheVariants.{NoMemory as no_memory};

    ghost from_gives = { λ _ e. e ≡ no_memory };

    fn from(_refused: AllocError) -> ParseEnd {
        ParseEnd::NoMemory
    }
}

impl<T: Drop> From<AllocFailed<T>> for ParseEnd {
    ghost use Rattle.std.specs.Prelude.{◌≡◌};
    ghost use Rattle.hs_expr_parser.specs.declared.parse_end.ParseEnd.TheVariants.{NoMemory as no_memory};

    ghost from_gives = { λ _ e. e ≡ no_memory };

    fn from(_refused: AllocFailed<T>) -> ParseEnd {
        ParseEnd::NoMemory
    }
}
