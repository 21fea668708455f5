//! One object.

ghost use Rattle.std.specs.Prelude.{◌≡◌, ◌≤◌, ◌+◌, ◌&&◌, pos, length, IfOk, OnOk, OnErr};
ghost use Rattle.std.specs.Ordering.{int_eq};
ghost use Rattle.std.specs.Result.{result_map_both};
ghost use Rattle.hs_meaning.specs.Accesses.{object_stops, start_at, cells_from, with_cells_from};
ghost use Rattle.hs_meaning.specs.Machine as machine;
ghost use Rattle.hs_meaning.specs.Machine.{bytes_if, ended_object};
ghost use Rattle.hs_objects.specs.Objects.{storage_of};
ghost use Rattle.hs_values.specs.Answers.{or_first};

use hs_heap::Cell;
use hs_meaning::Stop;
use std::alloc::Global;
use std::marker::Model;

/// How long an object lives (X3.159-1989 3.1.2.4).
#[derive(Clone, Copy, Debug)]
pub enum Storage {
    /// As long as the program.
    Permanent,
    /// As long as the call that made it.
    Automatic,
    /// A routine made it, and it lives until it is disposed.
    Allocated,
    /// Its life has ended.
    Ended,
}

/// An object: its cells, and how long it lives. Contracts see the object of the definitions.
#[derive(Debug, Drop)]
pub struct Object {
    cells: Vec<Cell>,
    storage: Storage,
}

impl Model for Object {
    ghost use Rattle.hs_meaning.specs.Machine.{Object as meant};

    ghost Value = { meant };

    ghost use Rattle.hs_objects.specs.Objects.{storage_of};

    ghost view = { λ it. record { cells = it.cells.items; storage = storage_of it.storage } };
}

impl Object {
    /// An object with these cells.
    pub fn new(storage: Storage, cells: Vec<Cell>) -> Object
        ensures { result ≡ record { cells = cells.items; storage = storage_of storage } }
    {
        Object { cells, storage }
    }

    /// Whether its life has ended.
    #[inline(always)]
    pub fn has_ended(&self) -> bool
        ensures { result ≡ machine.has_ended self.now.storage }
    {
        matches!(self.storage, Storage::Ended)
    }

    /// Whether the program may dispose it by a pointer to that byte: a routine made it, and the byte is its first one.
    pub fn may_be_disposed_at(&self, at: i64) -> bool
        ensures { result ≡ (int_eq at (pos 0) && machine.is_allocated self.now.storage) }
    {
        at == 0 && matches!(self.storage, Storage::Allocated)
    }

    /// How many bytes it adds to those of calls.
    pub(crate) fn bytes_of_call(&self) -> usize
        ensures { result ≡ bytes_if (machine.is_automatic self.now.storage) self.now }
    {
        match self.storage {
            Storage::Automatic => self.cells.len(),
            Storage::Permanent | Storage::Allocated | Storage::Ended => 0,
        }
    }

    /// How many bytes it adds to those of routines.
    pub(crate) fn bytes_of_routine(&self) -> usize
        ensures { result ≡ bytes_if (machine.is_allocated self.now.storage) self.now }
    {
        match self.storage {
            Storage::Allocated => self.cells.len(),
            Storage::Permanent | Storage::Automatic | Storage::Ended => 0,
        }
    }

    /// Ends its life, and frees its cells.
    pub(crate) fn end(&mut self, alloc: Global)
        ensures { self.new ≡ ended_object }
    {
        self.cells = Vec::new(alloc);
        self.storage = Storage::Ended;
    }

    /// Where so many cells begin, from that byte on, if all of them are inside.
    #[inline(always)]
    fn start(&self, at: i64, count: usize) -> Result<usize, Stop>
        ensures place { result ≡ or_first (object_stops at count (Some self.now)) (start_at at) }
        ensures inside { IfOk result (λ start. start + count ≤ length self.now.cells) }
    {
        if self.has_ended() {
            return Err(Stop::Gone);
        }
        if at < 0 {
            return Err(Stop::Range);
        }
        let start = at as usize;
        if start > self.cells.len() || count > self.cells.len() - start {
            return Err(Stop::Range);
        }
        Ok(start)
    }

    /// Lends so many cells, from that byte on.
    #[inline(always)]
    pub(crate) fn cells(&self, at: i64, count: usize) -> Result<&[Cell], Stop>
        ensures { result_map_both (λ its. its.now) (λ why. why) result
            ≡ or_first (object_stops at count (Some self.now)) (cells_from at count self.now.cells) }
    {
        let start = self.start(at, count)?;
        Ok(&self.cells[start..start + count])
    }

    /// Puts cells there, from that byte on, if all of them are inside.
    pub(crate) fn store(&mut self, at: i64, cells: &[Cell]) -> Result<(), Stop>
        ensures stops { result ≡ or_first (object_stops at (length cells.now) (Some self.old)) tt }
        ensures stored { OnOk result (self.new ≡ record self.old { cells = with_cells_from at cells.now self.old.cells }) }
        ensures kept { OnErr result (self.new ≡ self.old) }
        ensures as_large { length self.new.cells ≡ length self.old.cells }
        ensures as_long { self.new.storage ≡ self.old.storage }
    {
        let start = self.start(at, cells.len())?;
        self.cells[start..start + cells.len()].copy_from_slice(cells);
        Ok(())
    }
}
