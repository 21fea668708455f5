//! Why a call of the heap has no answer.

ghost use Rattle.std.specs.Prelude.{◌≡◌};
ghost use Rattle.hs_heap.specs.declared.stop.HeapEnd.TheVariants.{NoMemory as no_memory, Stopped};

use hs_base::NoMemory;
use std::alloc::{AllocError, AllocFailed};

/// Why the machine stops at a use of a block.
#[derive(Clone, Copy, Debug, PartialEq, Eq)]
pub enum HeapStop {
    /// The block was disposed.
    Disposed,
    /// A pointer of an older life of the block: the program emptied or reallocated it since.
    Old,
    /// A pointer of an older epoch: the block was moved or purged since.
    Stale,
    /// The handle of a block that was purged.
    Purged,
    /// Outside the block.
    Range,
}

/// Why a call that takes memory has no answer.
#[derive(Clone, Copy, Debug, PartialEq, Eq)]
pub enum HeapEnd {
    Stopped(HeapStop),
    /// Live bytes would pass 16777216, there is no number for one more block, or a life has reached 4294967295.
    Full,
    /// Memory ran out.
    NoMemory,
}

impl From<NoMemory> for HeapEnd {
    ghost from_gives = { λ _ e. e ≡ no_memory };

    fn from(_refused: NoMemory) -> HeapEnd {
        HeapEnd::NoMemory
    }
}

impl<T: Drop> From<AllocFailed<T>> for HeapEnd {
    ghost from_gives = { λ _ e. e ≡ no_memory };

    fn from(_refused: AllocFailed<T>) -> HeapEnd {
        HeapEnd::NoMemory
    }
}

impl From<AllocError> for HeapEnd {
    ghost from_gives = { λ _ e. e ≡ no_memory };

    fn from(_refused: AllocError) -> HeapEnd {
        HeapEnd::NoMemory
    }
}

impl From<HeapStop> for HeapEnd {
    ghost from_gives = { λ why e. e ≡ Stopped why };

    fn from(why: HeapStop) -> HeapEnd {
        HeapEnd::Stopped(why)
    }
}
