//! A block as the heap keeps it.

ghost use Rattle.std.specs.Prelude.{◌≡◌, ◌≤◌, ◌+◌, take, drop, [], true, false, length, IfOk};
ghost use Rattle.hs_heap.specs.Blocks.{new_block, with_lock, with_purge_bit, with_state, emptied, disposed, size_of, state_of, master_of, standing, bit, cells_of, is_disposed, StaysDisposed, reach, range_at, place_for, loaded, stored, RoleActs, Resizes, Reallocates, IsCopied, with_cells};
ghost use Rattle.std.specs.Result.{result_map_both};
ghost use Rattle.hs_heap.specs.Shift.{is_loose};
ghost use Rattle.hs_heap.specs.Passes.{purged, relocated};

use crate::cell::{Cell, Spot};
use crate::presence::Presence;
use crate::stop::{HeapEnd, HeapStop};
use hs_base::NoMemory;
use std::alloc::Global;
use std::marker::Model;
use std::mem::replace;

/// The last life of which pointers can be.
const LAST_LIFE: u32 = 4_294_967_295;

/// A relocatable block.
#[derive(Drop)]
pub(crate) struct Row {
    cells: Vec<Cell>,
    /// How often the program emptied or reallocated it.
    life: u32,
    epoch: u32,
    locked: bool,
    purgeable: bool,
    presence: Presence,
}

impl Model for Row {
    ghost use Rattle.hs_heap.specs.Blocks.{Block, IsInRange};

    ghost Value = { Block };

    ghost view = { λ it. record {
      cells = it.cells.items;
      life = it.life;
      epoch = it.epoch;
      locked = it.locked;
      purgeable = it.purgeable;
      presence = it.presence;
    } };

    ghost invariant = { λ it. IsInRange (record {
      cells = it.cells.items;
      life = it.life;
      epoch = it.epoch;
      locked = it.locked;
      purgeable = it.purgeable;
      presence = it.presence;
    }) };
}

/// What a bit of a byte is worth, if it is set.
fn bit(worth: u8, is_set: bool) -> u8
    ensures { result ≡ bit worth is_set }
{
    if is_set { worth } else { 0 }
}

/// Where that many cells begin from that offset on, if all of them lie among the cells of a block.
#[inline(always)]
fn range_at(offset: i64, count: usize, size: usize) -> Result<usize, HeapStop>
    requires fits { size ≤ 16777216 }
    ensures range { result ≡ range_at offset count size }
    ensures inside { IfOk result (λ at. at + count ≤ size) }
{
    if offset < 0 || offset > size as i64 || count > size - offset as usize {
        return Err(HeapStop::Range);
    }
    Ok(offset as usize)
}

impl Row {
    /// A block of that many cells without values.
    pub(crate) fn new(alloc: Global, size: u32) -> Result<Row, NoMemory>
        requires fits { size ≤ 16777216 }
        ensures { IfOk result (λ it. it ≡ new_block size) }
    {
        let mut cells = Vec::new(alloc);
        cells.resize(size as usize, Cell::Undefined)?;
        Ok(Row {
            cells,
            life: 0,
            epoch: 0,
            locked: false,
            purgeable: false,
            presence: Presence::Present,
        })
    }

    /// Whether the block is there for a role, which does nothing to one that was emptied, and stops at others.
    #[inline(always)]
    fn standing(&self) -> Result<bool, HeapStop>
        ensures standing { result ≡ standing self.now.presence }
        ensures there { IfOk result (λ _. is_disposed self.now.presence ≡ false) }
    {
        match self.presence {
            Presence::Present => Ok(true),
            Presence::Emptied => Ok(false),
            Presence::Purged => Err(HeapStop::Purged),
            Presence::Disposed => Err(HeapStop::Disposed),
        }
    }

    /// Sets or clears the lock.
    pub(crate) fn set_lock(&mut self, on: bool) -> Result<(), HeapStop>
        ensures acts { RoleActs (with_lock on self.old) self.old self.new result }
        ensures same_epoch { self.new.epoch ≡ self.old.epoch }
        ensures stays_disposed { StaysDisposed self.old self.new }
        ensures as_large { length self.new.cells ≡ length self.old.cells }
    {
        if self.standing()? {
            self.locked = on;
        }
        Ok(())
    }

    /// Sets or clears the attribute that lets the block be purged.
    pub(crate) fn set_purge_bit(&mut self, on: bool) -> Result<(), HeapStop>
        ensures acts { RoleActs (with_purge_bit on self.old) self.old self.new result }
        ensures same_epoch { self.new.epoch ≡ self.old.epoch }
        ensures stays_disposed { StaysDisposed self.old self.new }
        ensures as_large { length self.new.cells ≡ length self.old.cells }
    {
        if self.standing()? {
            self.purgeable = on;
        }
        Ok(())
    }

    /// Puts both attributes back, as a state byte has them.
    pub(crate) fn set_state(&mut self, byte: u8) -> Result<(), HeapStop>
        ensures acts { RoleActs (with_state byte self.old) self.old self.new result }
        ensures same_epoch { self.new.epoch ≡ self.old.epoch }
        ensures stays_disposed { StaysDisposed self.old self.new }
        ensures as_large { length self.new.cells ≡ length self.old.cells }
    {
        if self.standing()? {
            self.locked = byte >= 128;
            self.purgeable = byte % 128 >= 64;
        }
        Ok(())
    }

    /// Takes the cells away, unless the block is locked or of the last life.
    pub(crate) fn empty(&mut self) -> Result<(), HeapStop>
        ensures acts { RoleActs (emptied self.old) self.old self.new result }
        ensures same_epoch { self.new.epoch ≡ self.old.epoch }
        ensures stays_disposed { StaysDisposed self.old self.new }
        ensures shrinks { length self.new.cells ≤ length self.old.cells }
    {
        let is_here = self.standing()?;
        if self.life == LAST_LIFE {
            return Ok(());
        }
        if is_here && !self.locked {
            self.cells.clear();
            self.life += 1;
            self.presence = Presence::Emptied;
        }
        Ok(())
    }

    /// Ends the block.
    pub(crate) fn dispose(&mut self) -> Result<(), HeapStop>
        ensures acts { RoleActs (disposed self.old) self.old self.new result }
        ensures same_epoch { self.new.epoch ≡ self.old.epoch }
        ensures stays_disposed { StaysDisposed self.old self.new }
        ensures shrinks { length self.new.cells ≤ length self.old.cells }
    {
        self.standing()?;
        self.cells.clear();
        self.presence = Presence::Disposed;
        Ok(())
    }

    /// How many bytes it takes.
    pub(crate) fn bytes(&self) -> usize
        ensures { result ≡ length self.now.cells }
    {
        self.cells.len()
    }

    /// How many cells it has for the program.
    pub(crate) fn size(&self) -> Result<u32, HeapStop>
        ensures { result ≡ size_of self.now }
    {
        if !self.standing()? {
            return Ok(0);
        }
        Ok(self.cells.len() as u32)
    }

    /// The state byte.
    pub(crate) fn state(&self) -> Result<u8, HeapStop>
        ensures { result ≡ state_of self.now }
    {
        if !self.standing()? {
            return Ok(0);
        }
        Ok(bit(128, self.locked) + bit(64, self.purgeable))
    }

    /// Where the block is now, if its handle has that number; nothing of an emptied block.
    #[inline(always)]
    pub(crate) fn master(&self, number: u32) -> Result<Option<Spot>, HeapStop>
        ensures { result ≡ master_of number self.now }
    {
        if !self.standing()? {
            return Ok(None);
        }
        Ok(Some(Spot {
            block: number,
            life: self.life,
            epoch: self.epoch,
            offset: 0,
        }))
    }

    /// The cells, none of a block that was emptied.
    pub(crate) fn cells(&self) -> Result<&[Cell], HeapStop>
        ensures { result_map_both (λ its. its.now) (λ why. why) result ≡ cells_of self.now }
    {
        if !self.standing()? {
            return Ok(&[]);
        }
        Ok(self.cells.as_slice())
    }

    /// Whether the block was disposed.
    #[inline(always)]
    pub(crate) fn is_disposed(&self) -> bool
        ensures { result ≡ is_disposed self.now.presence }
    {
        matches!(self.presence, Presence::Disposed)
    }

    /// How many cells a pointer can reach.
    #[inline(always)]
    fn reach(&self) -> usize
        ensures reach { result ≡ reach self.now.presence self.now.cells }
        ensures among { result ≤ length self.now.cells }
    {
        match self.presence {
            Presence::Purged => 0,
            Presence::Present | Presence::Emptied | Presence::Disposed => self.cells.len(),
        }
    }

    /// Where that many cells begin that a pointer reaches.
    #[inline(always)]
    pub(crate) fn place_for(&self, p: &Spot, count: usize) -> Result<usize, HeapStop>
        ensures place { result ≡ place_for p.now count self.now }
        ensures inside { IfOk result (λ at. at + count ≤ length self.now.cells) }
    {
        if self.is_disposed() {
            return Err(HeapStop::Disposed);
        }
        if p.life != self.life {
            return Err(HeapStop::Old);
        }
        if p.epoch != self.epoch {
            return Err(HeapStop::Stale);
        }
        range_at(p.offset, count, self.reach())
    }

    /// Lends the cells that the pointer reaches.
    #[inline(always)]
    pub(crate) fn lend(&self, p: &Spot, count: usize) -> Result<&[Cell], HeapStop>
        ensures { result_map_both (λ its. its.now) (λ why. why) result ≡ loaded p.now count self.now }
    {
        let at = self.place_for(p, count)?;
        Ok(&self.cells[at..at + count])
    }

    /// Copies the cells that the pointer reaches.
    pub(crate) fn load(&self, p: &Spot, into: &mut [Cell]) -> Result<(), HeapStop>
        ensures { IsCopied (loaded p.now (length into.old) self.now) into.old into.new result }
    {
        let at = self.place_for(p, into.len())?;
        into.copy_from_slice(&self.cells[at..at + into.len()]);
        Ok(())
    }

    /// Puts cells where the pointer reaches.
    #[inline(always)]
    pub(crate) fn store(&mut self, p: &Spot, cells: &[Cell]) -> Result<(), HeapStop>
        ensures acts { RoleActs (stored p.now cells.now self.old) self.old self.new result }
        ensures same_epoch { self.new.epoch ≡ self.old.epoch }
        ensures stays_disposed { StaysDisposed self.old self.new }
        ensures as_large { length self.new.cells ≡ length self.old.cells }
    {
        let at = self.place_for(p, cells.len())?;
        self.put(at, cells);
        Ok(())
    }

    /// Cuts the block or adds cells without values, if it then has no more cells than that room.
    pub(crate) fn resize(&mut self, size: u32, room: usize) -> Result<(), HeapEnd>
        requires has_room { length self.old.cells ≤ room × room ≤ 16777216 }
        ensures reshapes { Resizes size room self.old self.new result }
        ensures same_epoch { self.new.epoch ≡ self.old.epoch }
        ensures stays_disposed { StaysDisposed self.old self.new }
        ensures within { length self.new.cells ≤ room }
    {
        if !self.standing()? {
            return Ok(());
        }
        if size as usize > room {
            return Err(HeapEnd::Full);
        }
        self.cells.resize(size as usize, Cell::Undefined)?;
        Ok(())
    }

    /// Gives the block new cells, unless it is locked, if they are no more than that room.
    pub(crate) fn reallocate(
        &mut self,
        alloc: Global,
        size: u32,
        room: usize,
    ) -> Result<(), HeapEnd>
        requires has_room { length self.old.cells ≤ room × room ≤ 16777216 }
        ensures reshapes { Reallocates size room self.old self.new result }
        ensures same_epoch { self.new.epoch ≡ self.old.epoch }
        ensures stays_disposed { StaysDisposed self.old self.new }
        ensures within { length self.new.cells ≤ room }
    {
        self.standing()?;
        if self.locked {
            return Ok(());
        }
        if self.life == LAST_LIFE || size as usize > room {
            return Err(HeapEnd::Full);
        }
        let mut cells = Vec::new(alloc);
        cells.resize(size as usize, Cell::Undefined)?;
        self.cells = cells;
        self.life += 1;
        self.locked = false;
        self.purgeable = false;
        self.presence = Presence::Present;
        Ok(())
    }

    /// Whether the block has its cells and no lock.
    fn is_loose(&self) -> bool
        ensures { result ≡ is_loose self.now }
    {
        matches!(self.presence, Presence::Present) && !self.locked
    }

    /// Purges the block, if it permits that.
    pub(crate) fn purge(&mut self)
        ensures { self.new ≡ purged self.old }
    {
        if self.is_loose() && self.purgeable {
            self.epoch = self.epoch.saturating_add(1);
            self.presence = Presence::Purged;
        }
    }

    /// Moves the block, if it permits that.
    pub(crate) fn relocate(&mut self)
        ensures { self.new ≡ relocated self.old }
    {
        if self.is_loose() {
            self.epoch = self.epoch.saturating_add(1);
        }
    }

    /// Takes the cells out of the row, until they are given back.
    pub(crate) fn take_cells(&mut self, alloc: Global) -> Vec<Cell>
        ensures taken { result.items ≡ self.old.cells }
        ensures fits { length result.items ≤ 16777216 }
        ensures left { self.new ≡ record self.old { cells = [] } }
    {
        replace(&mut self.cells, Vec::new(alloc))
    }

    /// Gives the row cells again.
    pub(crate) fn give_cells(&mut self, cells: Vec<Cell>)
        requires fits { length cells.items ≤ 16777216 }
        ensures { self.new ≡ record self.old { cells = cells.items } }
    {
        self.cells = cells;
    }

    /// Puts cells at that place.
    #[inline(always)]
    pub(crate) fn put(&mut self, at: usize, cells: &[Cell])
        requires inside { at + length cells.now ≤ length self.old.cells }
        ensures { self.new ≡ with_cells at cells.now self.old }
    {
        self.cells[at..at + cells.len()].copy_from_slice(cells);
    }

    /// Copies that many cells from one place to another, also if the two overlap.
    pub(crate) fn move_within(&mut self, here: usize, there: usize, count: usize)
        requires from { here + count ≤ length self.old.cells }
        requires to { there + count ≤ length self.old.cells }
        ensures { self.new ≡ with_cells there (take count (drop here self.old.cells)) self.old }
    {
        self.cells.copy_within(here..here + count, there);
    }
}
