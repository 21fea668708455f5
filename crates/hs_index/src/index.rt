//! Names with their places.

ghost use Rattle.std.specs.Prelude.{◌≡◌, List, ℕ, [], Some, None, nat_eq, if◌then◌else◌, OnOk, OnErr};
ghost use Rattle.std.specs.Cmp.Lexicographic.{pointwise};
ghost use Rattle.hs_index.specs.Index.{at, Puts, Removes};

use hs_base::NoMemory;
use indexmap::IndexMap;
use std::alloc::Global;
use std::marker::Model;

/// A place for each name. Contracts see the names with their places. To look for one takes no longer if there are many.
#[derive(Drop)]
pub struct Index {
    places: IndexMap<Vec<u8>, u32>,
}

impl Model for Index {
    ghost use Rattle.std.specs.Prelude.{List, ℕ};
    ghost use Rattle.hs_index.specs.Index.{by_bytes};

    ghost Value = { List (List ℕ × ℕ) };

    ghost view = { λ it. by_bytes it.places.entries };
}

impl Index {
    /// No names. Takes no memory.
    pub fn new(alloc: Global) -> Index
        ensures { result ≡ [] }
    {
        Index {
            places: IndexMap::new(alloc),
        }
    }

    /// The place of the name, if it has one.
    ///
    /// Example: `None` for any name that was not put.
    pub fn place(&self, name: &[u8]) -> Option<u32>
        ensures { result ≡ at name.now self.now }
    {
        self.places.get(name).copied()
    }

    /// Gives the name that place. Fails if memory runs out, but not if the name has a place already.
    pub fn put(&mut self, name: Vec<u8>, place: u32) -> Result<(), NoMemory>
        ensures put { OnOk result (Puts name.items place self.old self.new) }
        ensures absent { OnErr result (at name.items self.old ≡ None) }
        ensures unchanged { OnErr result (self.new ≡ self.old) }
    {
        let Ok(_) = self.places.insert(name, place) else {
            return Err(NoMemory);
        };
        Ok(())
    }

    /// Takes the name away. Takes no memory.
    ///
    /// Example: `place` then returns `None` for it.
    pub fn remove(&mut self, name: &[u8])
        ensures { Removes name.now self.old self.new }
    {
        let _ = self.places.swap_remove(name);
    }
}
