//! The rows that are found, listed by operation. A hash finds those of long lists. `specs/Hashing.antt` says which it has.

ghost use Rattle.std.specs.Prelude.{◌≡◌, ◌<◌, ◌++◌, ◌∷◌, ℕ, [], length, slice_get, slice_set, Some, true, false, IfOk, OnOk, IfSome};
ghost use Rattle.hs_search.specs.Hashing.{IsFinding, IsHashed, IsOldest, IsReady, Leaves, nearest, spot_of};
ghost use Rattle.hs_search.specs.Listing.{Seen, last_in};
ghost use Rattle.hs_search.specs.Storing.{IsOther};
ghost use Rattle.hs_search.specs.declared.lists.Item.{Item};
ghost use Rattle.hs_search.specs.declared.reach.Reach.{Reach};

use crate::lists::Lists;
use crate::reach::Reach;
use hs_base::NoMemory;
use indexmap::IndexMap;
use std::alloc::Global;

/// How many rows of an operation are looked through one after the other: the newest ones. The hash has those before them.
const NEAREST: u32 = 32;

/// A node, as rows have it.
#[derive(Clone, Copy, PartialEq, Eq, Hash)]
pub(crate) struct Spot {
    /// The code of the fact.
    pub fact: u64,
    /// The number of the operation.
    pub at: u32,
    /// The number of the call that the node is in.
    pub call: u32,
}

impl Spot {
    /// The node, listed by that operation.
    fn new(at: u32, reach: Reach) -> Spot
        ensures { result ≡ spot_of at reach }
    {
        Spot {
            fact: reach.fact,
            at,
            call: reach.call,
        }
    }
}

/// Where the row of a node is.
#[derive(Clone, Copy)]
pub(crate) enum Place {
    /// The row of that number.
    Row(usize),
    /// It has none. If a row is added for it, the row of that number is no longer one of the newest.
    Nowhere(Option<usize>),
}

/// Rows, listed by operation.
#[derive(Drop)]
pub(crate) struct Rows {
    /// All of them.
    pub lists: Lists<Reach>,
    /// The numbers of those that are not among the newest of their operation.
    pub older: IndexMap<Spot, u32>,
    /// It has these and no others.
    pub ghost hashed: { IsHashed nearest lists.items.items older.entries },
}

/// Whether two nodes of one operation are the same.
fn is_same(row: &Reach, reach: Reach) -> bool
    ensures same { result ≡ true → (row.now.fact ≡ reach.fact) × (row.now.call ≡ reach.call) }
    ensures other { result ≡ false → row.now.fact ≡ reach.fact → row.now.call ≡ reach.call → ⊥ }
{
    row.fact == reach.fact && row.call == reach.call
}

impl Rows {
    /// No rows, and so many operations.
    pub(crate) fn new(alloc: Global, width: usize) -> Result<Rows, NoMemory>
        ensures items { IfOk result (λ it. it.lists.items.items ≡ []) }
        ensures wide { IfOk result (λ it. length it.lists.heads.items ≡ width) }
    {
        let lists = Lists::new(alloc, width)?;
        Ok(Rows {
            lists,
            older: IndexMap::new(alloc),
        })
    }

    /// How many rows there are.
    pub(crate) fn len(&self) -> usize
        ensures { result ≡ length self.now.lists.items.items }
    {
        self.lists.len()
    }

    /// The row of the node, if there is one.
    pub(crate) fn find(&self, reach: Reach) -> Place
        requires known { reach.at < length self.now.lists.heads.items }
        ensures { IsFinding nearest self.now.lists.items.items reach result }
    {
        let mut number = self.lists.last(reach.at);
        let mut passed = 0;
        'newest: while number > 0 {
            let place = (number - 1) as usize;
            let row = self.lists.item(place);
            if is_same(&row.value, reach) {
                return Place::Row(place);
            }
            passed += 1;
            if passed == NEAREST {
                return self.find_older(reach, place);
            }
            number = row.link;
        }
        Place::Nowhere(None)
    }

    /// The row of the node, if there is one. The newest rows, from that place on, have other nodes.
    fn find_older(&self, reach: Reach, oldest: usize) -> Place
        requires oldest { IsOldest nearest self.now.lists.items.items reach.at oldest }
        requires seen { Seen self.now.lists.items.items reach.at oldest (IsOther reach) }
        ensures { IsFinding nearest self.now.lists.items.items reach result }
    {
        match self.older.get(&Spot::new(reach.at, reach)) {
            Some(number) => Place::Row(*number as usize),
            None => Place::Nowhere(Some(oldest)),
        }
    }

    /// The hash gets the row that is no longer one of the newest.
    fn keep(&mut self, leaving: Option<usize>) -> Result<(), NoMemory>
        requires within { IfSome leaving (λ n. n < length self.old.lists.items.items) }
        ensures lists { self.new.lists ≡ self.old.lists }
        ensures ready { OnOk result ((key : ℕ) → Leaves nearest self.old.lists.items.items key leaving → IsReady nearest self.old.lists.items.items key self.new.older.entries) }
    {
        let Some(number) = leaving else {
            return Ok(());
        };
        let row = *self.lists.item(number);
        self.older
            .insert(Spot::new(row.key, row.value), number as u32)?;
        Ok(())
    }

    /// Adds a row to the list of an operation, after the row that is no longer one of the newest was found.
    pub(crate) fn push(
        &mut self,
        at: u32,
        value: Reach,
        leaving: Option<usize>,
    ) -> Result<(), NoMemory>
        requires known { at < length self.old.lists.heads.items }
        requires leaving { Leaves nearest self.old.lists.items.items at leaving }
        ensures items { OnOk result (self.new.lists.items.items ≡ self.old.lists.items.items ++ (record { key = at; link = last_in at self.old.lists.items.items; value = value }) ∷ []) }
        ensures wide { length self.new.lists.heads.items ≡ length self.old.lists.heads.items }
    {
        self.keep(leaving)?;
        self.lists.push(at, value)
    }

    /// Replaces the row of that number by an offer to its node.
    pub(crate) fn replace(&mut self, number: usize, offer: Reach)
        requires row { (it : Item Reach) → slice_get self.old.lists.items.items number ≡ Some it → (it.value.fact ≡ offer.fact) × (it.value.call ≡ offer.call) }
        requires known { number < length self.old.lists.items.items }
        ensures items { (it : Item Reach) → slice_get self.old.lists.items.items number ≡ Some it → self.new.lists.items.items ≡ slice_set self.old.lists.items.items number (record it { value = offer }) }
        ensures wide { length self.new.lists.heads.items ≡ length self.old.lists.heads.items }
    {
        self.lists.set(number, offer);
    }

    /// The rows alone.
    pub(crate) fn into_lists(self) -> Lists<Reach>
        ensures { result ≡ self.lists }
    {
        self.lists
    }
}
