//! What calls do to blocks.

use hs_base::Numbers;
use hs_heap::{Cell, Decision, Heap, HeapEnd, HeapStop, Spot, Which};
use std::alloc::Global;
use std::test::Fail;

/// The state of a block that was locked twice; unlocked once and made purgeable; put back to locked.
fn states(alloc: Global) -> Result<(u8, u8, u8), HeapEnd> {
    let mut heap = Heap::new(alloc);
    let b = heap.new_block(4)?;
    heap.lock(b)?;
    heap.lock(b)?;
    let locked = heap.state(b)?;
    heap.unlock(b)?;
    heap.purge_bit(b, true)?;
    let purgeable = heap.state(b)?;
    heap.set_state(b, 0x80)?;
    Ok((locked, purgeable, heap.state(b)?))
}

// Inside Macintosh: Memory: the lock is one attribute, and counts nothing.
#[test]
fn locks_are_not_counted(rt: HostRuntime) -> Result<(), Fail> {
    assert_eq!(rt; states(rt.alloc()).ok(), Some((0x80, 0x40, 0x80)));
    Ok(())
}

/// The first block's number, its master pointer and its size, and a byte that was stored at its end, with the cell in front of it.
fn first_block(alloc: Global) -> Result<(u32, Option<Spot>, u32, [Cell; 2]), HeapEnd> {
    let mut heap = Heap::new(alloc);
    let b = heap.new_block(4)?;
    let size = heap.size(b)?;
    let master = heap.master(b)?;
    let mut cells = [Cell::State(0); 2];
    if let Some(at) = master {
        let end = Spot {
            block: b,
            offset: 3,
            ..at
        };
        heap.store(&end, &[Cell::Byte(65)])?;
        heap.load(&Spot { offset: 2, ..end }, &mut cells)?;
    }
    Ok((b, master, size, cells))
}

// Own: the first block has number 1, life 0 and epoch 0.
#[test]
fn a_new_block_has_cells_without_values(rt: HostRuntime) -> Result<(), Fail> {
    let front = Spot {
        block: 1,
        life: 0,
        epoch: 0,
        offset: 0,
    };
    let cells = [Cell::Undefined, Cell::Byte(65)];
    assert_eq!(rt;
        first_block(rt.alloc()).ok(),
        Some((1, Some(front), 4, cells))
    );
    Ok(())
}

/// What a load at an offset of a block of four cells is refused for.
fn load_at(alloc: Global, offset: i64, count: usize) -> Result<Option<HeapStop>, HeapEnd> {
    let mut heap = Heap::new(alloc);
    let b = heap.new_block(4)?;
    let mut cells = [Cell::Undefined; 2];
    let at = Spot {
        block: b,
        life: 0,
        epoch: 0,
        offset,
    };
    Ok(heap.load(&at, &mut cells[..count.min(2)]).err())
}

// Own: every cell that is used is inside the block.
#[test]
fn a_load_stays_inside_the_block(rt: HostRuntime) -> Result<(), Fail> {
    let alloc = rt.alloc();
    assert_eq!(rt; load_at(alloc, 2, 2).ok(), Some(None));
    assert_eq!(rt; load_at(alloc, 3, 2).ok(), Some(Some(HeapStop::Range)));
    assert_eq!(rt; load_at(alloc, -1, 1).ok(), Some(Some(HeapStop::Range)));
    assert_eq!(rt; load_at(alloc, 4, 0).ok(), Some(None));
    Ok(())
}

/// The sizes of a block that `empty` was called of while it was locked, and then while it was not; what a pointer of before is refused for;
/// and the life of the block once it has cells again.
fn emptied(alloc: Global) -> Result<(u32, u32, Option<HeapStop>, Option<Spot>), HeapEnd> {
    let mut heap = Heap::new(alloc);
    let b = heap.new_block(4)?;
    heap.lock(b)?;
    heap.empty(b)?;
    let locked = heap.size(b)?;
    heap.unlock(b)?;
    heap.empty(b)?;
    let unlocked = heap.size(b)?;
    let old = Spot {
        block: b,
        life: 0,
        epoch: 0,
        offset: 0,
    };
    let stop = heap.load(&old, &mut [Cell::Undefined]).err();
    heap.realloc(b, 2)?;
    Ok((locked, unlocked, stop, heap.master(b)?))
}

// Inside Macintosh: Memory, EmptyHandle and ReallocateHandle: a locked block stays. Own: lives.
#[test]
fn an_emptied_block_has_a_new_life(rt: HostRuntime) -> Result<(), Fail> {
    let again = Spot {
        block: 1,
        life: 2,
        epoch: 0,
        offset: 0,
    };
    assert_eq!(rt;
        emptied(rt.alloc()).ok(),
        Some((4, 0, Some(HeapStop::Old), Some(again)))
    );
    Ok(())
}

/// How many cells a block has after it was made larger and then smaller, and why it cannot be used once it was disposed.
fn resized(alloc: Global) -> Result<(usize, usize, Option<HeapStop>), HeapEnd> {
    let mut heap = Heap::new(alloc);
    let b = heap.new_block(1)?;
    heap.resize(b, 3)?;
    let larger = heap.view(b)?.len();
    heap.resize(b, 2)?;
    let smaller = heap.view(b)?.len();
    heap.dispose(b)?;
    Ok((larger, smaller, heap.lock(b).err()))
}

// Inside Macintosh: Memory, SetHandleSize and DisposeHandle.
#[test]
fn a_block_is_resized_and_disposed(rt: HostRuntime) -> Result<(), Fail> {
    assert_eq!(rt;
        resized(rt.alloc()).ok(),
        Some((3, 2, Some(HeapStop::Disposed)))
    );
    Ok(())
}

/// A block of four cells after its first three were moved one further; one of two cells after the last two of it were moved there; and why
/// three cannot be.
fn moved(alloc: Global) -> Result<([Cell; 4], [Cell; 2], Option<HeapStop>), HeapEnd> {
    let mut heap = Heap::new(alloc);
    let a = heap.new_block(4)?;
    let b = heap.new_block(2)?;
    let from = Spot {
        block: a,
        life: 0,
        epoch: 0,
        offset: 0,
    };
    let to = Spot { block: b, ..from };
    let letters = [
        Cell::Byte(65),
        Cell::Byte(66),
        Cell::Byte(67),
        Cell::Byte(68),
    ];
    heap.store(&from, &letters)?;
    heap.block_move(&from, &Spot { offset: 1, ..from }, 3)?;
    heap.block_move(&Spot { offset: 2, ..from }, &to, 2)?;
    let mut first = [Cell::Undefined; 4];
    let mut second = [Cell::Undefined; 2];
    heap.load(&from, &mut first)?;
    heap.load(&to, &mut second)?;
    Ok((first, second, heap.block_move(&from, &to, 3).err()))
}

// Inside Macintosh: Memory, BlockMove: right also if the two overlap.
#[test]
fn cells_are_moved(rt: HostRuntime) -> Result<(), Fail> {
    let first = [
        Cell::Byte(65),
        Cell::Byte(65),
        Cell::Byte(66),
        Cell::Byte(67),
    ];
    let second = [Cell::Byte(66), Cell::Byte(67)];
    assert_eq!(rt;
        moved(rt.alloc()).ok(),
        Some((first, second, Some(HeapStop::Range)))
    );
    Ok(())
}

/// Why a block of that many bytes cannot be made.
fn refused(alloc: Global, size: u32) -> Option<HeapEnd> {
    Heap::new(alloc).new_block(size).err()
}

// Own: at most 16777216 live bytes.
#[test]
fn a_heap_has_a_limit(rt: HostRuntime) -> Result<(), Fail> {
    assert_eq!(rt; refused(rt.alloc(), 16_777_217), Some(HeapEnd::Full));
    Ok(())
}

/// A decision that moves and purges all blocks.
fn all() -> Decision {
    Decision {
        moves: Which::All,
        purges: Which::All,
    }
}

/// Where the first block is when it is new.
const FRONT: Spot = Spot {
    block: 1,
    life: 0,
    epoch: 0,
    offset: 0,
};

/// Where a block is after a shift while it was locked, and after one while it was not; what a load through an older pointer is refused for then;
/// and the byte that is there now.
fn shifted(alloc: Global) -> Result<(Option<Spot>, Option<Spot>, Option<HeapStop>, Cell), HeapEnd> {
    let mut heap = Heap::new(alloc);
    let b = heap.new_block(4)?;
    heap.store(&FRONT, &[Cell::Byte(65)])?;
    heap.lock(b)?;
    heap.shift(true, true, &all());
    let locked = heap.master(b)?;
    heap.unlock(b)?;
    heap.shift(true, true, &all());
    let unlocked = heap.master(b)?;
    let mut cell = [Cell::Undefined];
    let stop = heap.load(&FRONT, &mut cell).err();
    heap.load(&Spot { epoch: 1, ..FRONT }, &mut cell)?;
    Ok((locked, unlocked, stop, cell[0]))
}

// Inside Macintosh: Memory, "Properties of Relocatable Blocks": a locked block stays. Own: epochs.
#[test]
fn a_moved_block_has_a_new_epoch(rt: HostRuntime) -> Result<(), Fail> {
    let moved = Spot { epoch: 1, ..FRONT };
    assert_eq!(rt;
        shifted(rt.alloc()).ok(),
        Some((
            Some(FRONT),
            Some(moved),
            Some(HeapStop::Stale),
            Cell::Byte(65)
        ))
    );
    Ok(())
}

/// Where three blocks are after all blocks were moved twice: one that was there from the start, one that was emptied before the first shift and got
/// cells again after it, and one that was made after it. A fourth block was disposed before the first shift.
fn shifted_twice(alloc: Global) -> Result<[Option<Spot>; 3], HeapEnd> {
    let mut heap = Heap::new(alloc);
    let a = heap.new_block(1)?;
    let b = heap.new_block(1)?;
    let gone = heap.new_block(1)?;
    heap.empty(b)?;
    heap.dispose(gone)?;
    heap.shift(true, true, &all());
    heap.realloc(b, 1)?;
    let c = heap.new_block(1)?;
    heap.shift(true, true, &all());
    Ok([heap.master(a)?, heap.master(b)?, heap.master(c)?])
}

// Own: a shift of all blocks moves each that is not disposed, also one that had no cells at the shift before.
#[test]
fn each_block_that_is_left_moves(rt: HostRuntime) -> Result<(), Fail> {
    let first = Spot { epoch: 2, ..FRONT };
    let second = Spot {
        block: 2,
        life: 2,
        epoch: 1,
        ..FRONT
    };
    let last = Spot {
        block: 4,
        epoch: 1,
        ..FRONT
    };
    assert_eq!(rt;
        shifted_twice(rt.alloc()).ok(),
        Some([Some(first), Some(second), Some(last)])
    );
    Ok(())
}

/// Why a block that was purged has no size, and cannot be locked; and why there is no room for a block that would fit if its bytes did not count.
fn purged(alloc: Global) -> Result<(Option<HeapStop>, Option<HeapStop>, Option<HeapEnd>), HeapEnd> {
    let mut heap = Heap::new(alloc);
    let b = heap.new_block(4)?;
    heap.purge_bit(b, true)?;
    heap.shift(false, true, &all());
    let size = heap.size(b).err();
    let lock = heap.lock(b).err();
    Ok((size, lock, heap.new_block(16_777_213).err()))
}

// Inside Macintosh: Memory, "Purging and Reallocating Blocks", narrowed. Own: its bytes still count.
#[test]
fn a_purged_block_has_no_size(rt: HostRuntime) -> Result<(), Fail> {
    let stop = Some(HeapStop::Purged);
    assert_eq!(rt;
        purged(rt.alloc()).ok(),
        Some((stop, stop, Some(HeapEnd::Full)))
    );
    Ok(())
}

/// What the first of two blocks permits, what the routine may do, and the blocks that the decision moves and purges.
#[derive(Clone, Copy)]
struct Case {
    locked: bool,
    purgeable: bool,
    moves: bool,
    purges: bool,
    moved: [u32; 3],
    purged: [u32; 3],
}

/// Whether the first block has that epoch after a shift, and whether it was purged.
fn after(alloc: Global, case: Case, epoch: u32) -> Result<(bool, bool), HeapEnd> {
    let mut heap = Heap::new(alloc);
    let b = heap.new_block(1)?;
    heap.new_block(1)?;
    heap.purge_bit(b, case.purgeable)?;
    if case.locked {
        heap.lock(b)?;
    }
    let decision = Decision {
        moves: Which::These(Numbers::from_vec(Vec::from_array(alloc, case.moved)?)),
        purges: Which::These(Numbers::from_vec(Vec::from_array(alloc, case.purged)?)),
    };
    heap.shift(case.moves, case.purges, &decision);
    let is_there = heap.load(&Spot { epoch, ..FRONT }, &mut []).is_ok();
    Ok((is_there, heap.size(b).is_err()))
}

// Inside Macintosh: Memory. A locked block is neither moved nor purged; the Memory Manager purges only an unlocked, purgeable block. A block that
// is not named stays, and so does each under a routine that neither moves nor purges. Own: one that is named again, or in both lists, gets one
// epoch more; numbers of no block are ignored.
#[test]
fn a_shift_changes_what_the_block_permits(rt: HostRuntime) -> Result<(), Fail> {
    let alloc = rt.alloc();
    // locked, purgeable, the routine moves, it purges, moved blocks, purged blocks: the epoch after it, and whether the block was purged
    let cases = [
        (false, false, true, true, [1, 1, 1], [1, 1, 1], 1, false),
        (true, true, true, true, [1, 1, 0], [1, 0, 2], 0, false),
        (false, true, true, true, [1, 0, 1], [1, 9, 1], 1, true),
        (false, true, true, false, [1, 2, 1], [1, 1, 1], 1, false),
        (false, true, false, true, [2, 1, 9], [2, 2, 0], 1, false),
        (false, true, false, true, [2, 0, 3], [1, 1, 1], 1, true),
        (false, true, true, true, [2, 0, 9], [2, 0, 9], 0, false),
        (false, true, false, false, [1, 1, 1], [1, 1, 1], 0, false),
    ];
    for (locked, purgeable, moves, purges, moved, purged, epoch, is_purged) in cases {
        let case = Case {
            locked,
            purgeable,
            moves,
            purges,
            moved,
            purged,
        };
        assert_eq!(rt; after(alloc, case, epoch).ok(), Some((true, is_purged)));
    }
    Ok(())
}
