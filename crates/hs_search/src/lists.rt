//! Items by a key, the newest first. `specs/Listing.antt` says what is kept.

ghost use Rattle.std.specs.Prelude.{◌≡◌, ◌<◌, ◌≤◌, ◌++◌, ◌∷◌, ◌^◌, [], length, slice_get, slice_set, Some, suc, OnOk, OnErr, IfOk};
ghost use Rattle.hs_search.specs.Listing.{IsIndex, last_in};
ghost use Rattle.hs_search.specs.declared.lists.Item.{Item};

use hs_base::NoMemory;
use std::alloc::Global;

/// An item of a list.
#[derive(Clone, Copy)]
pub(crate) struct Item<T> {
    /// Which list it is in.
    pub key: u32,
    /// The item before it in the list, counted from 1, or 0 if it is the first.
    pub link: u32,
    /// What is listed.
    pub value: T,
}

/// A list of items for each key.
#[derive(Drop)]
pub(crate) struct Lists<T: Copy> {
    /// The last item of each key, counted from 1, or 0 if there is none.
    pub heads: Vec<u32>,
    /// All items, in the order in which they came.
    pub items: Vec<Item<T>>,
    /// The heads and links say what they should.
    pub ghost right: { IsIndex heads.items items.items },
    /// Numbers of items fit.
    pub ghost few: { suc (length items.items) < 2 ^ 32 },
}

impl<T: Copy> Lists<T> {
    /// No items, and so many keys.
    pub(crate) fn new(alloc: Global, width: usize) -> Result<Lists<T>, NoMemory>
        ensures items { IfOk result (λ it. it.items.items ≡ []) }
        ensures wide { IfOk result (λ it. length it.heads.items ≡ width) }
    {
        let heads = Vec::from_elem(alloc, 0, width)?;
        Ok(Lists {
            heads,
            items: Vec::new(alloc),
        })
    }

    /// How many items there are.
    pub(crate) fn len(&self) -> usize
        ensures { result ≡ length self.now.items.items }
    {
        self.items.len()
    }

    /// The last item of the key, counted from 1, or 0 if there is none.
    pub(crate) fn last(&self, key: u32) -> u32
        requires known { key < length self.now.heads.items }
        ensures { result ≡ last_in key self.now.items.items }
    {
        self.heads[key as usize]
    }

    /// The same for any key. One that there is not has no items.
    pub(crate) fn newest(&self, key: u32) -> u32
        ensures { result ≡ last_in key self.now.items.items }
    {
        if (key as usize) < self.heads.len() {
            self.heads[key as usize]
        } else {
            0
        }
    }

    /// The item of that number.
    pub(crate) fn item(&self, number: usize) -> &Item<T>
        requires known { number < length self.now.items.items }
        ensures { slice_get self.now.items.items number ≡ Some result.now }
    {
        &self.items[number]
    }

    /// Adds an item. With 2^32 - 2 items there is no memory for another.
    pub(crate) fn push(&mut self, key: u32, value: T) -> Result<(), NoMemory>
        requires known { key < length self.old.heads.items }
        ensures items { OnOk result (self.new.items.items ≡ self.old.items.items ++ (record { key = key; link = last_in key self.old.items.items; value = value }) ∷ []) }
        ensures unchanged { OnErr result (self.new.items.items ≡ self.old.items.items) }
        ensures wide { length self.new.heads.items ≡ length self.old.heads.items }
        ensures one { length self.new.items.items ≤ suc (length self.old.items.items) }
    {
        if self.items.len() >= u32::MAX as usize - 1 {
            return Err(NoMemory);
        }
        let link = self.last(key);
        self.items.push(Item { key, link, value })?;
        self.heads[key as usize] = self.items.len() as u32;
        Ok(())
    }

    /// Replaces what the item of that number lists.
    pub(crate) fn set(&mut self, number: usize, value: T)
        requires known { number < length self.old.items.items }
        ensures items { (it : Item T) → slice_get self.old.items.items number ≡ Some it → self.new.items.items ≡ slice_set self.old.items.items number (record it { value = value }) }
        ensures wide { self.new.heads.items ≡ self.old.heads.items }
    {
        let item = *self.item(number);
        self.items[number] = Item {
            key: item.key,
            link: item.link,
            value,
        };
    }

    /// Adds keys, up to that one.
    pub(crate) fn widen_to(&mut self, key: u32) -> Result<(), NoMemory>
        ensures items { self.new.items.items ≡ self.old.items.items }
        ensures wide { OnOk result (key < length self.new.heads.items) }
    {
        'keys: while self.heads.len() <= key as usize {
            self.widen()?;
        }
        Ok(())
    }

    /// Adds a key, which has no items.
    pub(crate) fn widen(&mut self) -> Result<(), NoMemory>
        ensures items { self.new.items.items ≡ self.old.items.items }
        ensures wide { OnOk result (length self.new.heads.items ≡ suc (length self.old.heads.items)) }
        ensures grows { length self.old.heads.items ≤ length self.new.heads.items }
    {
        self.heads.push(0)?;
        Ok(())
    }
}
