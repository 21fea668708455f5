//! Why an operation of the machine has no value.

ghost use Rattle.std.specs.Prelude.{◌≡◌};
ghost use Rattle.hs_values.specs.declared.halt.Halt.TheVariants.{NoMemory as no_memory, Stopped};

use hs_base::NoMemory;
use hs_meaning::Stop;
use std::alloc::{AllocError, AllocFailed};

/// Why an operation of the machine has no value.
#[derive(Clone, Copy, Debug, PartialEq, Eq)]
pub enum Halt {
    /// The machine stops the run.
    Stopped(Stop),
    /// Memory ran out.
    NoMemory,
}

impl From<Stop> for Halt {
    ghost from_gives = { λ why e. e ≡ Stopped why };

    fn from(why: Stop) -> Halt {
        Halt::Stopped(why)
    }
}

impl From<NoMemory> for Halt {
    ghost from_gives = { λ _ e. e ≡ no_memory };

    fn from(_refused: NoMemory) -> Halt {
        Halt::NoMemory
    }
}

impl From<AllocError> for Halt {
    ghost from_gives = { λ _ e. e ≡ no_memory };

    fn from(_refused: AllocError) -> Halt {
        Halt::NoMemory
    }
}

impl<T: Drop> From<AllocFailed<T>> for Halt {
    ghost from_gives = { λ _ e. e ≡ no_memory };

    fn from(_refused: AllocFailed<T>) -> Halt {
        Halt::NoMemory
    }
}
