//! Changes of a block that take no memory.

ghost use Rattle.std.specs.Prelude.{◌≡◌, length};
ghost use Rattle.hs_heap.specs.Memory.{Acts, IsMade};
ghost use Rattle.hs_roles.specs.Parts.{changed_as};

use hs_heap::{Heap, HeapStop};

/// A change of a block that takes no memory.
#[derive(Clone, Copy)]
pub(crate) enum Change {
    /// Lock it, or unlock it.
    Lock(bool),
    /// Make it purgeable, or unpurgeable.
    Purge(bool),
    /// Put its attributes back to those of the byte.
    State(u8),
    /// Free its memory, unless it is locked or of the last life.
    Empty,
    /// End it.
    Dispose,
}

/// Changes the block of that number so.
///
/// # Errors
///
/// `Disposed` and `Purged`, of a block that is. Nothing is changed then.
pub(crate) fn apply(heap: &mut Heap, block: u32, change: Change) -> Result<(), HeapStop>
    requires made { IsMade heap.old block }
    ensures acts { Acts (changed_as change) block heap.old heap.new result }
    ensures as_many { length heap.new.blocks ≡ length heap.old.blocks }
    ensures same_shifts { heap.new.shifts ≡ heap.old.shifts }
{
    match change {
        Change::Lock(true) => heap.lock(block),
        Change::Lock(false) => heap.unlock(block),
        Change::Purge(on) => heap.purge_bit(block, on),
        Change::State(byte) => heap.set_state(block, byte),
        Change::Empty => heap.empty(block),
        Change::Dispose => heap.dispose(block),
    }
}
