//! Facts that are put into a buffer.

ghost use Rattle.std.specs.Prelude.{◌≡◌, ◌++◌, ◌-◌, ◌∷◌, []};
ghost use Rattle.hs_flow.specs.Buffers.{HasRoom};
ghost use Rattle.hs_flow.specs.Next.{also_if, at_each};
ghost use Rattle.hs_flow.specs.Slots.{below, slot_if};

use crate::slots::is_below;
use crate::{Fact, FactStatus, Facts, Slot};

/// Puts a fact, if so.
pub(crate) fn put_if(into: &mut Facts, so: bool, status: FactStatus, slot: Slot)
    requires room { HasRoom 1 into.old }
    ensures facts { into.new.facts ≡ into.old.facts ++ also_if so status slot }
    ensures room { into.new.room ≡ into.old.room }
{
    if so {
        into.put(status, slot);
    }
}

/// Puts a fact of the slot, if it stays below that place.
pub(crate) fn put_below(into: &mut Facts, base: u32, status: FactStatus, slot: Slot)
    requires room { HasRoom 1 into.old }
    ensures facts { into.new.facts ≡ into.old.facts ++ at_each status (below base slot) }
    ensures room { into.new.room ≡ into.old.room }
{
    if is_below(base, slot) {
        into.put(status, slot);
    }
}

/// The fact stays, as the operation takes nothing.
pub(crate) fn stay(into: &mut Facts, depth: u32, fact: Fact)
    requires room { HasRoom 1 into.old }
    ensures facts { into.new.facts
        ≡ into.old.facts ++ at_each fact.status (below (depth - 0) fact.slot) }
    ensures room { into.new.room ≡ into.old.room }
{
    put_below(into, depth, fact.status, fact.slot);
}

/// Puts a fact of the slot, if it stays below that place, and one of another slot, if so.
pub(crate) fn put_also(
    into: &mut Facts,
    base: u32,
    so: bool,
    to: Slot,
    status: FactStatus,
    slot: Slot,
)
    requires room { HasRoom 2 into.old }
    ensures facts { into.new.facts
        ≡ into.old.facts ++ at_each status (below base slot ++ slot_if so to) }
    ensures room { into.new.room ≡ into.old.room }
{
    put_below(into, base, status, slot);
    if so {
        into.put(status, to);
    }
}

/// Puts a fact of each of two slots.
pub(crate) fn put_both(into: &mut Facts, first: Slot, second: Slot, status: FactStatus)
    requires room { HasRoom 2 into.old }
    ensures facts { into.new.facts ≡ into.old.facts ++ at_each status (first ∷ second ∷ []) }
    ensures room { into.new.room ≡ into.old.room }
{
    into.put(status, first);
    into.put(status, second);
}
