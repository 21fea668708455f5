//! Facts that go over a call.

ghost use Rattle.std.specs.Prelude.{◌≡◌, ◌<◌, ◌++◌};
ghost use Rattle.hs_effects.specs.Calling.{whole_of};
ghost use Rattle.hs_flow.specs.Buffers.{HasRoom};
ghost use Rattle.hs_flow.specs.Calls.{fresh_or_loose, goes_over, held_if, is_kept, is_slot_kept, over_of, passed};
ghost use Rattle.hs_flow.specs.Programs.{IsTableFor, callee_of};

use crate::calls::{assigns, assigns_name, base, marks, moves, purges, unlocks};
use crate::naming::is_name_locked;
use crate::putting::put_if;
use crate::{Around, Fact, FactStatus, Facts, Slot};
use hs_code::Code;
use hs_effects::EffectTable;

/// Whether the lock of the name lasts over the call.
fn is_kept<A: Around>(code: &Code, f: u32, effects: &EffectTable, around: &A, h: u32) -> bool
    requires table { IsTableFor (whole_of code.now) effects.now f }
    ensures { result
        ≡ is_kept (callee_of (whole_of code.now) effects.now f) (A.given around.now) h }
{
    !unlocks(effects, f) && around.locked(h)
}

/// Whether the lock of a name of the slot lasts over the call.
fn is_slot_kept<A: Around>(
    code: &Code,
    f: u32,
    effects: &EffectTable,
    around: &A,
    slot: Slot,
) -> bool
    requires table { IsTableFor (whole_of code.now) effects.now f }
    ensures { result
        ≡ is_slot_kept (callee_of (whole_of code.now) effects.now f) (A.given around.now) slot }
{
    !unlocks(effects, f) && is_name_locked(around, slot)
}

/// Whether the slot goes over the call: it is no argument, and no global that the function may assign.
fn goes_over<A: Around>(code: &Code, f: u32, effects: &EffectTable, around: &A, slot: Slot) -> bool
    requires table { IsTableFor (whole_of code.now) effects.now f }
    ensures { result
        ≡ goes_over (callee_of (whole_of code.now) effects.now f) (A.given around.now) slot }
{
    match slot {
        Slot::Place(place) => place < base(code, f, around),
        Slot::Variable(variable) => !assigns(code, f, effects, variable),
        Slot::Nothing | Slot::Answer | Slot::Class(_) => true,
    }
}

/// Fresh from the name, unless it is assigned.
pub(crate) fn fresh_or_loose(assigned: bool, h: u32) -> FactStatus
    ensures { result ≡ fresh_or_loose assigned h }
{
    if assigned {
        FactStatus::Loose
    } else {
        FactStatus::Fresh(h)
    }
}

/// Held, if it is locked.
pub(crate) fn held_if(locked: bool) -> FactStatus
    ensures { result ≡ held_if locked }
{
    if locked {
        FactStatus::Held
    } else {
        FactStatus::Outer
    }
}

/// What becomes of a slot that goes over the call.
fn pass<A: Around>(
    into: &mut Facts,
    around: &A,
    code: &Code,
    f: u32,
    effects: &EffectTable,
    fact: Fact,
)
    requires table { IsTableFor (whole_of code.now) effects.now f }
    requires room { HasRoom 3 into.old }
    ensures facts { into.new.facts
        ≡ into.old.facts
        ++ passed (callee_of (whole_of code.now) effects.now f) (A.given around.now)
        fact.status fact.slot }
    ensures room { into.new.room ≡ into.old.room }
{
    let slot = fact.slot;
    match fact.status {
        FactStatus::IsHandle => {
            into.put(fact.status, slot);
            let marked = marks(effects, f);
            put_if(into, marked, FactStatus::Purgeable, slot);
            let purged = marked
                && purges(effects, f)
                && !is_slot_kept(code, f, effects, around, slot);
            put_if(into, purged, FactStatus::Hollow, slot)
        }
        FactStatus::Purgeable => {
            into.put(fact.status, slot);
            let purged = purges(effects, f) && !is_slot_kept(code, f, effects, around, slot);
            put_if(into, purged, FactStatus::Hollow, slot)
        }
        FactStatus::Fresh(h) => {
            let assigned = assigns_name(code, f, effects, around, h);
            into.put(fresh_or_loose(assigned, h), slot);
            let moved = moves(effects, f) && !is_kept(code, f, effects, around, h);
            put_if(into, moved, FactStatus::Stale, slot)
        }
        FactStatus::Held => {
            let unlocked = unlocks(effects, f);
            into.put(held_if(!unlocked), slot);
            let moved = moves(effects, f) && unlocked;
            put_if(into, moved, FactStatus::Stale, slot)
        }
        FactStatus::Outer | FactStatus::Loose => {
            into.put(fact.status, slot);
            put_if(into, moves(effects, f), FactStatus::Stale, slot)
        }
        FactStatus::Reached | FactStatus::Hollow | FactStatus::SavedPurgeable | FactStatus::Stale =>
            into.put(fact.status, slot),
    }
}

/// Puts the facts at the next operation that go over a call of the function `f`, after those that are in the buffer. `around` is what is known at the call.
/// Takes no memory.
///
/// Example: a pointer that was loaded from a handle stays, and may be stale too if the function moves memory and the handle is not locked.
pub fn over_call<A: Around>(
    code: &Code,
    f: u32,
    effects: &EffectTable,
    fact: Fact,
    around: &A,
    into: &mut Facts,
)
    requires table { IsTableFor (whole_of code.now) effects.now f }
    requires room { HasRoom 3 into.old }
    ensures facts { into.new.facts
        ≡ into.old.facts
        ++ over_of (callee_of (whole_of code.now) effects.now f) (A.given around.now) fact }
    ensures room { into.new.room ≡ into.old.room }
{
    if goes_over(code, f, effects, around, fact.slot) {
        pass(into, around, code, f, effects, fact);
    }
}
