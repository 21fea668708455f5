//! What a run on the machine shows.

ghost use Rattle.std.specs.Prelude.{◌≡◌};
ghost use Rattle.hs_machine.specs.declared.transcript.MachineEnd.TheVariants.{NoMemory as no_memory};

use hs_base::{Bytes, Limit, NoMemory};
use hs_heap::Heap;
use hs_meaning::Outcome;
use hs_movers::Script;
use std::alloc::AllocFailed;

/// What a run put out, how it ended, and the decisions under which it ran.
#[derive(Drop)]
pub struct Transcript {
    /// The bytes that it put out, at most 16777216.
    pub output: Bytes,
    /// How it ended.
    pub outcome: Outcome,
    /// One decision for each call of a routine that moves or purges, as the mover gave it, but without the number 0, which names no block. The
    /// decisions and the block numbers in them are at most 4000000 together. The seed is 0.
    pub script: Script,
    /// The heap at the end of the run. If the run stopped, it is the heap that the operation found which stopped.
    pub heap: Heap,
}

/// Why a run was given up.
#[derive(Clone, Copy, Debug, PartialEq, Eq)]
pub enum MachineEnd {
    /// The output, or the script, would pass its limit.
    Limit(Limit),
    /// Memory ran out, for the machine or for the mover.
    NoMemory,
}

impl From<NoMemory> for MachineEnd {
    ghost from_gives = { λ _ e. e ≡ no_memory };

    fn from(_refused: NoMemory) -> MachineEnd {
        MachineEnd::NoMemory
    }
}

impl<T: Drop> From<AllocFailed<T>> for MachineEnd {
    ghost from_gives = { λ _ e. e ≡ no_memory };

    fn from(_refused: AllocFailed<T>) -> MachineEnd {
        MachineEnd::NoMemory
    }
}
