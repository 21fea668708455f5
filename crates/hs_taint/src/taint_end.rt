//! Why the facts that chains reach are not found.

ghost use Rattle.std.specs.Prelude.{◌≡◌};
ghost use Rattle.hs_taint.specs.declared.taint_end.TaintEnd.TheVariants.{NoMemory as no_memory};

use hs_base::{Limit, NoMemory};

/// Why the facts that chains reach are not found.
#[derive(Clone, Copy)]
pub enum TaintEnd {
    /// A limit was passed: `Pairs`, or `PathSteps`.
    Limit(Limit),
    /// Memory ran out.
    NoMemory,
}

impl From<NoMemory> for TaintEnd {
    ghost from_gives = { λ _ e. e ≡ no_memory };

    fn from(_refused: NoMemory) -> TaintEnd {
        TaintEnd::NoMemory
    }
}
