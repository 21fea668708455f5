//! Where a run is.

ghost use Rattle.std.specs.Prelude.{◌≡◌};
ghost use Rattle.hs_machine.specs.declared.runner.End.TheVariants.{NoMemory as no_memory};

use hs_base::NoMemory;
use hs_code::FunctionCode;
use hs_layers::Layers;
use hs_meaning::Outcome;
use hs_state::Machine;
use hs_values::Value;
use std::alloc::AllocFailed;

/// The operation at which a call goes on.
#[derive(Clone, Copy)]
pub(crate) struct Next<'c> {
    /// The code of its function.
    pub(crate) code: &'c FunctionCode,
    /// The number of the operation.
    pub(crate) at: usize,
}

/// Where a run is, between two operations.
#[derive(Drop)]
pub(crate) struct Runner<'c, 'i> {
    pub(crate) machine: Machine<'i>,
    /// The stack of the call that goes on, on top of those of the calls that wait.
    pub(crate) stack: Layers<Value>,
    /// Its next operation.
    pub(crate) next: Next<'c>,
    /// Where the calls that wait go on, the innermost last.
    pub(crate) returns: Vec<Next<'c>>,
    /// How many turns are left.
    pub(crate) turns: u64,
}

/// Why a run does not go on.
#[derive(Clone, Copy)]
pub(crate) enum End {
    /// It has ended.
    Over(Outcome),
    /// Memory ran out.
    NoMemory,
}

impl From<NoMemory> for End {
    ghost from_gives = { λ _ e. e ≡ no_memory };

    fn from(_refused: NoMemory) -> End {
        End::NoMemory
    }
}

impl<T: Drop> From<AllocFailed<T>> for End {
    ghost from_gives = { λ _ e. e ≡ no_memory };

    fn from(_refused: AllocFailed<T>) -> End {
        End::NoMemory
    }
}
