//! All objects of a run.

ghost use Rattle.std.specs.Prelude.{◌≡◌, [], ◌∷◌, ◌++◌, length, slice_get, slice_set, option_copied, OnOk, OnErr};
ghost use Rattle.std.specs.Result.{result_map_both};
ghost use Rattle.hs_meaning.specs.Machine.{ended_object};
ghost use Rattle.hs_objects.specs.Objects.{Stores, cells_in, has_room, has_room_for_call};

use crate::Object;
use hs_base::NoMemory;
use hs_heap::Cell;
use hs_meaning::Stop;
use std::alloc::Global;
use std::marker::Model;

/// The most live bytes of calls, and the most of routines.
const MOST_BYTES: usize = 16_777_216;

/// The most objects.
const MOST_OBJECTS: usize = 4_294_967_295;

/// The objects of a run, numbered from 0 in the order in which they were made. A number is never used again. Contracts see the list.
#[derive(Drop)]
pub struct Objects {
    alloc: Global,
    items: Vec<Object>,
    /// The bytes of the objects of calls.
    of_calls: usize,
    /// The bytes of the objects that routines made.
    of_routines: usize,
}

impl Model for Objects {
    ghost use Rattle.std.specs.Prelude.{List};
    ghost use Rattle.hs_meaning.specs.Machine.{Object};

    ghost Value = { List Object };

    ghost use Rattle.hs_objects.specs.Objects.{IsCounted};

    ghost view = { λ it. it.items.items };

    ghost invariant = { λ it. IsCounted it.items.items it.of_calls it.of_routines };
}

impl Objects {
    /// No objects. Takes no memory.
    pub fn new(alloc: Global) -> Objects
        ensures { result ≡ [] }
    {
        Objects {
            alloc,
            items: Vec::new(alloc),
            of_calls: 0,
            of_routines: 0,
        }
    }

    /// How many objects were made.
    pub fn count(&self) -> usize
        ensures { result ≡ length self.now }
    {
        self.items.len()
    }

    /// The object of that number, if it was made.
    #[inline(always)]
    pub fn get(&self, place: u32) -> Option<&Object>
        ensures { option_copied result ≡ slice_get self.now place }
    {
        self.items.get(place as usize)
    }

    /// Whether a routine may make one more of so many bytes. Live bytes that routines made are at most 16777216, and objects at most 4294967295.
    pub fn has_room(&self, size: usize) -> bool
        ensures { result ≡ has_room size self.now }
    {
        self.of_routines.saturating_add(size) <= MOST_BYTES && self.items.len() < MOST_OBJECTS
    }

    /// Whether a call may make so many objects, of so many bytes together. Live bytes of calls are at most 16777216.
    pub fn has_room_for_call(&self, bytes: usize, count: usize) -> bool
        ensures { result ≡ has_room_for_call bytes count self.now }
    {
        self.of_calls.saturating_add(bytes) <= MOST_BYTES
            && self.items.len().saturating_add(count) <= MOST_OBJECTS
    }

    /// Adds an object, which has the next number.
    ///
    /// # Errors
    ///
    /// `NoMemory` if memory runs out. Nothing is changed then.
    pub fn push(&mut self, it: Object) -> Result<(), NoMemory>
        ensures adds { OnOk result (self.new ≡ self.old ++ it ∷ []) }
        ensures kept { OnErr result (self.new ≡ self.old) }
    {
        let of_calls = self
            .of_calls
            .checked_add(it.bytes_of_call())
            .ok_or(NoMemory)?;
        let of_routines = self
            .of_routines
            .checked_add(it.bytes_of_routine())
            .ok_or(NoMemory)?;
        self.items.push(it)?;
        self.of_calls = of_calls;
        self.of_routines = of_routines;
        Ok(())
    }

    /// Ends the life of the object of that number, if it was made.
    pub fn end(&mut self, place: u32)
        ensures { self.new ≡ slice_set self.old place ended_object }
    {
        let alloc = self.alloc;
        if let Some(it) = self.items.get_mut(place as usize) {
            let of_calls = it.bytes_of_call();
            let of_routines = it.bytes_of_routine();
            it.end(alloc);
            self.of_calls -= of_calls;
            self.of_routines -= of_routines;
        }
    }

    /// Lends so many cells of the object of that number, from that byte on.
    ///
    /// # Errors
    ///
    /// `Gone` if its life has ended, and `Range` if the cells are not all inside it. `BadPointer` for an object that was never made.
    #[inline(always)]
    pub fn cells(&self, place: u32, at: i64, count: usize) -> Result<&[Cell], Stop>
        ensures { result_map_both (λ its. its.now) (λ why. why) result ≡ cells_in place at count self.now }
    {
        match self.get(place) {
            Some(it) => it.cells(at, count),
            None => Err(Stop::BadPointer),
        }
    }

    /// Puts cells into the object of that number, from that byte on.
    ///
    /// # Errors
    ///
    /// Those of `cells`. Nothing is changed then.
    pub fn store(&mut self, place: u32, at: i64, cells: &[Cell]) -> Result<(), Stop>
        ensures { Stores place at cells.now self.old self.new result }
    {
        let Some(it) = self.items.get_mut(place as usize) else {
            return Err(Stop::BadPointer);
        };
        it.store(at, cells)
    }
}
