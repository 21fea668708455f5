//! Lists on top of one another.

ghost use Rattle.std.specs.Prelude.{◌≡◌, ◌<◌, ◌≤◌, [], ◌∷◌, ◌++◌, length, take, slice_get, slice_set, Some, option_to_list, IfNone, OnOk, OnErr};
ghost use Rattle.hs_layers.specs.Layers.{Layered, Opens, Closes, brought};

use hs_base::NoMemory;
use std::alloc::Global;
use std::marker::Model;
use std::mem::replace;

/// Lists on top of one another, of which the one on top is used. They share one `Vec`, so that a new one takes no memory of its own.
#[derive(Drop)]
pub struct Layers<T> {
    /// Those of the lowest list, and then of each one on top of it.
    items: Vec<T>,
    /// Where the list on top begins.
    base: usize,
    /// Where the lists below it begin, the lowest first.
    bases: Vec<usize>,
}

impl<T> Model for Layers<T> {
    ghost use Rattle.std.specs.Prelude.{◌∷◌, reverse};
    ghost use Rattle.hs_layers.specs.Layers.{Layered, IsNested, layered};

    ghost Value = { Layered T };

    ghost view = { λ it. layered it.items.items it.base (reverse it.bases.items) };

    ghost invariant = { λ it. IsNested it.items.items (it.base ∷ reverse it.bases.items) };
}

impl<T: Drop> Layers<T> {
    /// One empty list. Takes no memory.
    pub fn new(alloc: Global) -> Layers<T>
        ensures top { result.top ≡ [] }
        ensures below { result.below ≡ [] }
    {
        Layers {
            items: Vec::new(alloc),
            base: 0,
            bases: Vec::new(alloc),
        }
    }

    /// Lends the list on top.
    #[inline(always)]
    pub fn items(&self) -> &[T]
        ensures { result.now ≡ self.now.top }
    {
        &self.items.as_slice()[self.base..]
    }

    /// Puts an item at the end of the list on top.
    ///
    /// # Errors
    ///
    /// `NoMemory` if memory runs out. Nothing is changed then.
    #[inline(always)]
    pub fn push(&mut self, item: T) -> Result<(), NoMemory>
        ensures top { OnOk result (self.new.top ≡ self.old.top ++ item ∷ []) }
        ensures kept { OnErr result (self.new.top ≡ self.old.top) }
        ensures below { self.new.below ≡ self.old.below }
    {
        // The test for room is short enough to stand where the push does.
        if self.items.len() >= self.items.capacity() {
            self.items.reserve(1)?;
        }
        self.items.push_reserved(item);
        Ok(())
    }

    /// Takes the last item of the list on top, if it has one.
    #[inline(always)]
    pub fn pop(&mut self) -> Option<T>
        ensures top { self.old.top ≡ self.new.top ++ option_to_list result }
        ensures none { IfNone result (self.old.top ≡ []) }
        ensures below { self.new.below ≡ self.old.below }
    {
        if self.items.len() > self.base {
            self.items.pop()
        } else {
            None
        }
    }

    /// Cuts the list on top to that many items.
    pub fn truncate(&mut self, count: usize)
        ensures top { self.new.top ≡ take count self.old.top }
        ensures below { self.new.below ≡ self.old.below }
    {
        if count < self.items.len() - self.base {
            self.items.truncate(self.base + count);
        }
    }

    /// Puts another item at that place of the list on top.
    pub fn set(&mut self, place: usize, item: T)
        requires there { place < length self.old.top }
        ensures top { self.new.top ≡ slice_set self.old.top place item }
        ensures below { self.new.below ≡ self.old.below }
    {
        self.items[self.base + place] = item;
    }

    /// Puts another item at that place of the list on top, and gives the one that was there.
    #[inline(always)]
    pub fn replace(&mut self, place: usize, item: T) -> T
        requires there { place < length self.old.top }
        ensures top { self.new.top ≡ slice_set self.old.top place item }
        ensures was { slice_get self.old.top place ≡ Some result }
        ensures below { self.new.below ≡ self.old.below }
    {
        replace(&mut self.items[self.base + place], item)
    }

    /// Moves the item at that place of the list on top to its end. Takes no memory.
    pub fn bring(&mut self, place: usize)
        requires there { place < length self.old.top }
        ensures top { (item : T) → slice_get self.old.top place ≡ Some item → self.new.top ≡ brought place item self.old.top }
        ensures below { self.new.below ≡ self.old.below }
    {
        let item = self.items.remove(self.base + place);
        match self.items.push(item) {
            Ok(()) => (),
            Err(_) => unreachable!(),
        }
    }

    /// Puts an empty list on top.
    ///
    /// # Errors
    ///
    /// `NoMemory` if memory runs out. Nothing is changed then.
    pub fn open(&mut self) -> Result<(), NoMemory>
        ensures opens { OnOk result (Opens self.old self.new) }
        ensures kept { OnErr result (self.new ≡ self.old) }
    {
        self.bases.push(self.base)?;
        self.base = self.items.len();
        Ok(())
    }

    /// Takes the list on top away, with its items. Whether there was one below it: if not, nothing is changed.
    pub fn close(&mut self) -> bool
        ensures { Closes self.old.below self.old self.new result }
    {
        let Some(base) = self.bases.pop() else {
            return false;
        };
        self.items.truncate(self.base);
        self.base = base;
        true
    }
}
