//! Lists that grow at the end.

ghost use Rattle.std.specs.Prelude.{◌≡◌, ◌++◌, ◌∷◌, ◌-◌, [], OnOk, OnErr, length, option_copied, slice_get, slice_set, take};

use hs_base::NoMemory;
use std::alloc::Global;
use std::marker::Model;

/// A list that grows at the end. Contracts see the list.
#[derive(Drop)]
pub struct Log<T: Drop> {
    vec: Vec<T>,
}

impl<T: Drop> Model for Log<T> {
    ghost use Rattle.std.specs.Prelude.{List};

    ghost Value = { List T };

    ghost view = { λ it. it.vec.items };
}

impl<T: Drop> Log<T> {
    /// The empty list. Takes no memory.
    pub fn new(alloc: Global) -> Log<T>
        ensures { result ≡ [] }
    {
        Log {
            vec: Vec::new(alloc),
        }
    }

    /// How many items there are.
    pub fn len(&self) -> usize
        ensures { result ≡ length self.now }
    {
        self.vec.len()
    }

    /// Puts an item at the end. Fails if memory runs out.
    pub fn push(&mut self, item: T) -> Result<(), NoMemory>
        ensures pushed { OnOk result (self.new ≡ self.old ++ item ∷ []) }
        ensures unchanged { OnErr result (self.new ≡ self.old) }
    {
        self.vec.push(item)?;
        Ok(())
    }

    /// Takes the last item away, if there is one.
    pub(crate) fn drop_last(&mut self)
        ensures { self.new ≡ take (length self.old - 1) self.old }
    {
        let _ = self.vec.pop();
    }

    /// Replaces the item at that place, if there is one.
    pub(crate) fn set(&mut self, place: u32, item: T)
        ensures { self.new ≡ slice_set self.old place item }
    {
        if (place as usize) < self.vec.len() {
            self.vec[place as usize] = item;
        }
    }

    /// The item at that place, if there is one.
    pub(crate) fn get(&self, place: u32) -> Option<&T>
        ensures { option_copied result ≡ slice_get self.now place }
    {
        self.vec.get(place as usize)
    }

    /// Lends the items.
    pub fn items(&self) -> &[T]
        ensures { result.now ≡ self.now }
    {
        self.vec.as_slice()
    }
}
