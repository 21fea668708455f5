//! Why emitting stops.

ghost use Rattle.std.specs.Prelude.{◌≡◌};
ghost use Rattle.hs_lower_expressions.specs.declared.emit_end.EmitEnd.TheVariants.{NoMemory as no_memory};

use hs_base::NoMemory;
use std::alloc::AllocFailed;

/// Why operations are not emitted.
#[derive(Clone, Copy, Debug, PartialEq, Eq)]
pub enum EmitEnd {
    /// The operations would be more than 1000000 (`hs_base::LimitKind::Ops`).
    Limit,
    /// Memory ran out.
    NoMemory,
}

impl From<NoMemory> for EmitEnd {
    ghost from_gives = { λ _ e. e ≡ no_memory };

    fn from(_refused: NoMemory) -> EmitEnd {
        EmitEnd::NoMemory
    }
}

impl<T: Drop> From<AllocFailed<T>> for EmitEnd {
    ghost from_gives = { λ _ e. e ≡ no_memory };

    fn from(_refused: AllocFailed<T>) -> EmitEnd {
        EmitEnd::NoMemory
    }
}
