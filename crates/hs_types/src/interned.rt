//! A list in which nothing is twice, and whose entries are found by hashing.

ghost use Rattle.std.specs.Prelude.{◌≡◌, ◌<◌, ◌≤◌, length, [], IfOk, OnOk, OnErr, slice_get, option_copied};
ghost use Rattle.std.specs.List.{position_or_len};
ghost use Rattle.indexmap.specs.IndexSet.{insert_key};

use hs_base::NoMemory;
use indexmap::IndexSet;
use std::alloc::Global;
use std::hash::Hash;
use std::marker::Model;

/// The most entries of a list: the limits of a program are far below.
const MOST: usize = 4_000_000_000;

/// A list in which nothing is twice. Contracts see the list.
#[derive(Drop)]
pub(crate) struct Interned<T: Eq + Hash> {
    set: IndexSet<T>,
}

impl<T: Eq + Hash> Model for Interned<T> {
    ghost use Rattle.std.specs.Prelude.{List};

    ghost Value = { List T };

    ghost view = { λ it. it.set.keys };
}

impl<T: Eq + Hash + Copy + Drop> Interned<T> {
    /// The empty list. Takes no memory.
    pub(crate) fn new(alloc: Global) -> Interned<T>
        ensures { result ≡ [] }
    {
        Interned {
            set: IndexSet::new(alloc),
        }
    }

    /// The place of the entry, which is put at the end if it is not there yet.
    pub(crate) fn place(&mut self, entry: T) -> Result<u32, NoMemory>
        ensures place { IfOk result (λ place. place ≡ position_or_len (T.eq entry) self.old) }
        ensures within { IfOk result (λ place. place < length self.new) }
        ensures list { OnOk result (self.new ≡ insert_key T.eq self.old entry) }
        ensures unchanged { OnErr result (self.new ≡ self.old) }
    {
        if self.set.len() >= MOST {
            return Err(NoMemory);
        }
        let (place, _) = self.set.insert_full(entry)?;
        Ok(place as u32)
    }

    /// How many entries there are.
    pub(crate) fn len(&self) -> usize
        ensures { result ≡ length self.now }
    {
        self.set.len()
    }

    /// The entry at that place, if there is one.
    pub(crate) fn entry(&self, place: u32) -> Option<T>
        ensures { result ≡ slice_get self.now place }
    {
        self.set.get_index(place as usize).copied()
    }
}
