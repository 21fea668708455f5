//! Changes of a block that take memory.

ghost use Rattle.std.specs.Prelude.{◌≡◌, length};
ghost use Rattle.hs_heap.specs.Memory.{IsMade, Reshapes};
ghost use Rattle.hs_roles.specs.Parts.{lives_of, reshaped_as};

use hs_heap::{Heap, HeapEnd};

/// How a block gets another number of bytes.
#[derive(Clone, Copy)]
pub(crate) enum Reshape {
    /// It is cut, or bytes are added at its end.
    Resize,
    /// It gets new bytes.
    Renew,
}

/// Gives the block of that number so many bytes.
///
/// # Errors
///
/// Those of the heap. It is then as it was.
pub(crate) fn reshape_block(
    heap: &mut Heap,
    block: u32,
    size: u32,
    how: Reshape,
) -> Result<(), HeapEnd>
    requires made { IsMade heap.old block }
    ensures acts { Reshapes (lives_of how) (reshaped_as how size) block heap.old heap.new result }
    ensures as_many { length heap.new.blocks ≡ length heap.old.blocks }
    ensures same_shifts { heap.new.shifts ≡ heap.old.shifts }
{
    match how {
        Reshape::Resize => heap.resize(block, size),
        Reshape::Renew => heap.realloc(block, size),
    }
}
