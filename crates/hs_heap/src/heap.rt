//! The heap.

ghost use Rattle.std.specs.Prelude.{◌≡◌, ◌≤◌, ◌<◌, ◌+◌, IfOk, [], true, false, length};
ghost use Rattle.hs_heap.specs.Blocks.{both_places, with_lock, with_purge_bit, with_state, emptied, disposed, size_of, state_of, master_of, loaded, stored, always, resized, has_life, reallocated};
ghost use Rattle.std.specs.Result.{result_map_both};
ghost use Rattle.hs_heap.specs.Memory.{Acts, Answers, Reshapes, Loads, Lends, Moves, HasCells, IsCopiedBetween, MakesBlock, IsMade};
ghost use Rattle.hs_heap.specs.Shift.{after_shift, OthersStay, LockedStay, EpochsRise};

use crate::cell::{Cell, Spot};
use crate::decision::Decision;
use crate::pass::{drop_disposed, purge, relocate};
use crate::row::Row;
use crate::stop::{HeapEnd, HeapStop};
use std::alloc::Global;
use std::marker::Model;

/// The most live bytes.
const MOST_BYTES: usize = 16_777_216;

/// The most blocks.
const MOST_BLOCKS: usize = 4_294_967_295;

/// A heap of relocatable blocks, numbered from 1 in the order in which they were made. Contracts see the list of them.
#[derive(Drop)]
pub struct Heap {
    alloc: Global,
    rows: Vec<Row>,
    /// For each block, the number of the last shift that named it to be moved. There may be one more.
    marks: Vec<u32>,
    /// The numbers of the blocks that a shift of all blocks visits: each that is not disposed, and there may be others.
    listed: Vec<u32>,
    /// The bytes of all blocks.
    live: usize,
    /// How many shifts were made.
    shifts: u32,
}

impl Model for Heap {
    ghost use Rattle.hs_heap.specs.Memory.{Memory, IsKept, IsMarked, IsListed};

    ghost Value = { Memory };

    ghost view = { λ it. record { blocks = it.rows.items; shifts = it.shifts } };

    ghost invariant = { λ it. IsKept it.rows.items it.live
        × IsMarked it.rows.items it.marks.items it.shifts
        × IsListed it.rows.items it.listed.items };
}

/// Copies that many cells from one row to another, from and to these places.
fn copy_between(
    alloc: Global,
    rows: &mut Vec<Row>,
    places: (usize, usize),
    at: (usize, usize),
    count: usize,
)
    requires apart { (places.0 ≡ places.1) → ⊥ }
    requires from { HasCells places.0 (at.0 + count) rows.old.items }
    requires to { HasCells places.1 (at.1 + count) rows.old.items }
    ensures { IsCopiedBetween places.0 places.1 at.0 at.1 count rows.old.items rows.new.items }
{
    let cells = rows[places.0].take_cells(alloc);
    rows[places.1].put(at.1, &cells[at.0..at.0 + count]);
    rows[places.0].give_cells(cells);
}

/// Where that many cells begin that two pointers reach. The first one is tested first.
fn places(
    a: &Row,
    b: &Row,
    from: &Spot,
    to: &Spot,
    count: usize,
) -> Result<(usize, usize), HeapStop>
    ensures places { result ≡ both_places from.now to.now count a.now b.now }
    ensures from_inside { IfOk result (λ at. at.0 + count ≤ length a.now.cells) }
    ensures to_inside { IfOk result (λ at. at.1 + count ≤ length b.now.cells) }
{
    let here = a.place_for(from, count)?;
    let there = b.place_for(to, count)?;
    Ok((here, there))
}

/// Copies that many cells from one row to another, or inside one.
fn copy(
    alloc: Global,
    rows: &mut Vec<Row>,
    places: (usize, usize),
    at: (usize, usize),
    count: usize,
)
    requires from { HasCells places.0 (at.0 + count) rows.old.items }
    requires to { HasCells places.1 (at.1 + count) rows.old.items }
    ensures { IsCopiedBetween places.0 places.1 at.0 at.1 count rows.old.items rows.new.items }
{
    if places.0 == places.1 {
        rows[places.1].move_within(at.0, at.1, count);
    } else {
        copy_between(alloc, rows, places, at, count);
    }
}

impl Heap {
    /// A heap without blocks. Takes no memory.
    pub fn new(alloc: Global) -> Heap
        ensures { result ≡ record { blocks = []; shifts = 0 } }
    {
        Heap {
            alloc,
            rows: Vec::new(alloc),
            marks: Vec::new(alloc),
            listed: Vec::new(alloc),
            live: 0,
            shifts: 0,
        }
    }

    /// Makes a block of that many bytes without values, and gives its number (Inside Macintosh: Memory, NewHandle).
    ///
    /// # Errors
    ///
    /// `Full` if there is no room for it, and `NoMemory`. The heap is then as it was.
    pub fn new_block(&mut self, size: u32) -> Result<u32, HeapEnd>
        ensures makes { MakesBlock size self.old self.new result }
        ensures same_shifts { self.new.shifts ≡ self.old.shifts }
    {
        if size as usize > MOST_BYTES - self.live || self.rows.len() >= MOST_BLOCKS {
            return Err(HeapEnd::Full);
        }
        let row = Row::new(self.alloc, size)?;
        let number = self.rows.len() as u32 + 1;
        self.marks.resize(self.rows.len() + 1, 0)?;
        self.listed.push(number)?;
        self.rows.push(row)?;
        self.live += size as usize;
        Ok(number)
    }

    /// Locks the block: no shift moves or purges it (HLock).
    ///
    /// # Errors
    ///
    /// Here and below `Disposed` and `Purged`, of a block that was disposed or purged. A block that was emptied stays as it is.
    pub fn lock(&mut self, b: u32) -> Result<(), HeapStop>
        requires made { IsMade self.old b }
        ensures acts { Acts (with_lock true) b self.old self.new result }
        ensures as_many { length self.new.blocks ≡ length self.old.blocks }
        ensures same_shifts { self.new.shifts ≡ self.old.shifts }
    {
        self.rows[b as usize - 1].set_lock(true)
    }

    /// Takes the lock away, however often the block was locked (HUnlock).
    pub fn unlock(&mut self, b: u32) -> Result<(), HeapStop>
        requires made { IsMade self.old b }
        ensures acts { Acts (with_lock false) b self.old self.new result }
        ensures as_many { length self.new.blocks ≡ length self.old.blocks }
        ensures same_shifts { self.new.shifts ≡ self.old.shifts }
    {
        self.rows[b as usize - 1].set_lock(false)
    }

    /// Says whether the block may be purged while it is unlocked (HPurge and HNoPurge).
    pub fn purge_bit(&mut self, b: u32, on: bool) -> Result<(), HeapStop>
        requires made { IsMade self.old b }
        ensures acts { Acts (with_purge_bit on) b self.old self.new result }
        ensures as_many { length self.new.blocks ≡ length self.old.blocks }
        ensures same_shifts { self.new.shifts ≡ self.old.shifts }
    {
        self.rows[b as usize - 1].set_purge_bit(on)
    }

    /// Puts the lock, bit 7, and the purge bit, bit 6, back (HSetState). Other bits are ignored.
    pub fn set_state(&mut self, b: u32, s: u8) -> Result<(), HeapStop>
        requires made { IsMade self.old b }
        ensures acts { Acts (with_state s) b self.old self.new result }
        ensures as_many { length self.new.blocks ≡ length self.old.blocks }
        ensures same_shifts { self.new.shifts ≡ self.old.shifts }
    {
        self.rows[b as usize - 1].set_state(s)
    }

    /// Takes the cells of the block away, unless it is locked or of the last life, 4294967295 (EmptyHandle). Pointers into it are then of an old life.
    pub fn empty(&mut self, b: u32) -> Result<(), HeapStop>
        requires made { IsMade self.old b }
        ensures acts { Acts emptied b self.old self.new result }
        ensures as_many { length self.new.blocks ≡ length self.old.blocks }
        ensures same_shifts { self.new.shifts ≡ self.old.shifts }
    {
        let row = &mut self.rows[b as usize - 1];
        let held = row.bytes();
        let done = row.empty();
        let left = row.bytes();
        self.live -= held - left;
        done
    }

    /// Ends the block, locked or not (DisposeHandle).
    pub fn dispose(&mut self, b: u32) -> Result<(), HeapStop>
        requires made { IsMade self.old b }
        ensures acts { Acts disposed b self.old self.new result }
        ensures as_many { length self.new.blocks ≡ length self.old.blocks }
        ensures same_shifts { self.new.shifts ≡ self.old.shifts }
    {
        let row = &mut self.rows[b as usize - 1];
        let held = row.bytes();
        let done = row.dispose();
        let left = row.bytes();
        self.live -= held - left;
        done
    }

    /// Cuts the block to that many bytes, or adds bytes without values (SetHandleSize).
    ///
    /// # Errors
    ///
    /// `Stopped`; `Full` if live bytes would pass 16777216; `NoMemory`. The heap is then as it was. A block that was emptied stays as it is.
    pub fn resize(&mut self, b: u32, size: u32) -> Result<(), HeapEnd>
        requires made { IsMade self.old b }
        ensures acts { Reshapes always (resized size) b self.old self.new result }
        ensures as_many { length self.new.blocks ≡ length self.old.blocks }
        ensures same_shifts { self.new.shifts ≡ self.old.shifts }
    {
        let row = &mut self.rows[b as usize - 1];
        let others = self.live - row.bytes();
        let done = row.resize(size, MOST_BYTES - others);
        self.live = others + row.bytes();
        done
    }

    /// Gives an unlocked block that many new bytes without values, also one that was emptied; it is then unlocked and unpurgeable
    /// (ReallocateHandle). A locked block stays as it is.
    ///
    /// # Errors
    ///
    /// Those of `resize`, and `Full` if the life of the block has ended.
    pub fn realloc(&mut self, b: u32, size: u32) -> Result<(), HeapEnd>
        requires made { IsMade self.old b }
        ensures acts { Reshapes has_life (reallocated size) b self.old self.new result }
        ensures as_many { length self.new.blocks ≡ length self.old.blocks }
        ensures same_shifts { self.new.shifts ≡ self.old.shifts }
    {
        let row = &mut self.rows[b as usize - 1];
        let others = self.live - row.bytes();
        let done = row.reallocate(self.alloc, size, MOST_BYTES - others);
        self.live = others + row.bytes();
        done
    }

    /// The state byte: bit 7 is the lock, and bit 6 is set if the block may be purged (HGetState). It is 0 of a block that was emptied.
    pub fn state(&self, b: u32) -> Result<u8, HeapStop>
        requires made { IsMade self.now b }
        ensures { Answers state_of b self.now result }
    {
        self.rows[b as usize - 1].state()
    }

    /// How many bytes the block has (GetHandleSize), none if it was emptied.
    pub fn size(&self, b: u32) -> Result<u32, HeapStop>
        requires made { IsMade self.now b }
        ensures { Answers size_of b self.now result }
    {
        self.rows[b as usize - 1].size()
    }

    /// What the master pointer of the block's handle holds: where the block is now, or nothing if it was emptied.
    #[inline(always)]
    pub fn master(&self, b: u32) -> Result<Option<Spot>, HeapStop>
        requires made { IsMade self.now b }
        ensures { Answers (master_of b) b self.now result }
    {
        self.rows[b as usize - 1].master(b)
    }

    /// Moves and purges the blocks that the decision names and that permit it, if a routine that moves, or purges, or neither, is called
    /// (Inside Macintosh: Memory, "Properties of Relocatable Blocks"). All other entries of the decision count for nothing. Takes no memory.
    pub fn shift(&mut self, moves: bool, purges: bool, d: &Decision)
        requires shifts_left { self.old.shifts < 4294967295 }
        ensures shifts { self.new ≡ after_shift (record { moves = moves; purges = purges }) d.now self.old }
        ensures others_stay { OthersStay (record { moves = moves; purges = purges }) d.now self.old.blocks self.new.blocks }
        ensures locked_stay { LockedStay self.old.blocks self.new.blocks }
        ensures epochs { EpochsRise self.old.blocks self.new.blocks }
        ensures as_many { length self.new.blocks ≡ length self.old.blocks }
    {
        self.shifts += 1;
        drop_disposed(&mut self.listed, self.rows.as_slice(), d);
        purge(&mut self.rows, purges, &d.purges, self.listed.as_slice());
        relocate(
            &mut self.rows,
            &mut self.marks,
            moves || purges,
            &d.moves,
            self.listed.as_slice(),
            self.shifts,
        );
    }

    /// Copies as many cells as `into` has, from the place that the pointer names.
    ///
    /// # Errors
    ///
    /// `Disposed`, `Old`, `Stale` and `Range`, in this order. Nothing is copied then.
    pub fn load(&self, p: &Spot, into: &mut [Cell]) -> Result<(), HeapStop>
        requires made { IsMade self.now p.now.block }
        ensures { Loads p.now self.now into.old into.new result }
    {
        self.rows[p.block as usize - 1].load(p, into)
    }

    /// Lends that many cells, from the place that the pointer names, without copying them. The errors are those of `load`.
    #[inline(always)]
    pub fn lend(&self, p: &Spot, count: usize) -> Result<&[Cell], HeapStop>
        requires made { IsMade self.now p.now.block }
        ensures { Answers (loaded p.now count) p.now.block self.now (result_map_both (λ its. its.now) (λ why. why) result) }
    {
        self.rows[p.block as usize - 1].lend(p, count)
    }

    /// Puts cells at the place that the pointer names. The errors are those of `load`, and the heap is then as it was.
    #[inline(always)]
    pub fn store(&mut self, p: &Spot, cells: &[Cell]) -> Result<(), HeapStop>
        requires made { IsMade self.old p.now.block }
        ensures acts { Acts (stored p.now cells.now) p.now.block self.old self.new result }
        ensures as_many { length self.new.blocks ≡ length self.old.blocks }
        ensures same_shifts { self.new.shifts ≡ self.old.shifts }
    {
        self.rows[p.block as usize - 1].store(p, cells)
    }

    /// Copies that many cells from where one pointer reaches to where another does, also if the two overlap (BlockMove).
    ///
    /// # Errors
    ///
    /// Those of `load`, first for `from` and then for `to`. The heap is then as it was.
    pub fn block_move(&mut self, from: &Spot, to: &Spot, n: u32) -> Result<(), HeapStop>
        requires from { IsMade self.old from.now.block }
        requires to { IsMade self.old to.now.block }
        ensures moves { Moves from.now to.now n self.old self.new result }
        ensures as_many { length self.new.blocks ≡ length self.old.blocks }
        ensures same_shifts { self.new.shifts ≡ self.old.shifts }
    {
        let (i, j) = (from.block as usize - 1, to.block as usize - 1);
        match places(&self.rows[i], &self.rows[j], from, to, n as usize) {
            Ok(at) => {
                copy(self.alloc, &mut self.rows, (i, j), at, n as usize);
                Ok(())
            }
            Err(why) => Err(why),
        }
    }

    /// Lends the cells of the block, none if it was emptied, without copying them.
    pub fn view(&self, b: u32) -> Result<&[Cell], HeapStop>
        requires made { IsMade self.now b }
        ensures { Lends b self.now (result_map_both (λ its. its.now) (λ why. why) result) }
    {
        self.rows[b as usize - 1].cells()
    }
}
