//! Operations that copy, move or take values.

ghost use Rattle.std.specs.Prelude.{◌≡◌, ◌++◌, ◌-◌, ◌∷◌, [], slice_get};
ghost use Rattle.hs_flow.specs.Buffers.{HasRoom};
ghost use Rattle.hs_flow.specs.Next.{at_each, derived, is_name_of, is_of_pointers, loaded, pointer_place, renamed, stepped};
ghost use Rattle.hs_flow.specs.Slots.{below, brought_to, dup_slots, get_slots, load_slots, returned, set_slots, store_slots, tuck_slots, value_slots};

use crate::naming::least_name;
use crate::putting::{put_also, put_below, put_both, put_if};
use crate::slots::{is_class, is_place, is_variable, same_variable};
use crate::{Around, Fact, FactStatus, Facts, Slot};
use hs_tree::Variable;

/// The value of the variable is on top too.
pub(crate) fn get(into: &mut Facts, depth: u32, variable: Variable, fact: Fact)
    requires room { HasRoom 2 into.old }
    ensures facts { into.new.facts
        ≡ into.old.facts ++ at_each fact.status (get_slots variable depth fact.slot) }
    ensures room { into.new.room ≡ into.old.room }
{
    let read = is_variable(variable, fact.slot);
    put_also(
        into,
        depth,
        read,
        Slot::Place(depth),
        fact.status,
        fact.slot,
    );
}

/// Whether the name of that number is the variable.
fn is_named<A: Around>(around: &A, h: u32, variable: Variable) -> bool
    ensures { result ≡ is_name_of (slice_get (A.given around.now).names h) variable }
{
    match around.names().get(h as usize) {
        Some(name) => same_variable(*name, variable),
        None => false,
    }
}

/// The status once the variable is set: what was loaded from the handle in it has no name.
fn renamed<A: Around>(around: &A, variable: Variable, status: FactStatus) -> FactStatus
    ensures { result ≡ renamed (A.given around.now) variable status }
{
    match status {
        FactStatus::Fresh(h) if is_named(around, h, variable) => FactStatus::Loose,
        other => other,
    }
}

/// The variable has the value of the top, and what it had ends.
pub(crate) fn set<A: Around>(
    into: &mut Facts,
    around: &A,
    depth: u32,
    variable: Variable,
    fact: Fact,
)
    requires room { HasRoom 2 into.old }
    ensures facts { into.new.facts ≡ into.old.facts
        ++ at_each (renamed (A.given around.now) variable fact.status)
        (set_slots variable depth fact.slot) }
    ensures room { into.new.room ≡ into.old.room }
{
    if is_variable(variable, fact.slot) {
        return;
    }
    let status = renamed(around, variable, fact.status);
    let top = is_place(depth.saturating_sub(1), fact.slot);
    put_also(
        into,
        depth,
        top,
        Slot::Variable(variable),
        status,
        fact.slot,
    );
}

/// A pointer that is loaded from a handle in the top place.
fn derive<A: Around>(into: &mut Facts, around: &A, top: u32, fact: Fact)
    requires room { HasRoom 1 into.old }
    ensures facts { into.new.facts
        ≡ into.old.facts ++ loaded (A.given around.now) top fact.status fact.slot }
    ensures room { into.new.room ≡ into.old.room }
{
    if let FactStatus::IsHandle = fact.status {
        if is_place(top, fact.slot) {
            into.put(derived(least_name(around, top)), Slot::Place(top));
        }
    }
}

/// The status of a pointer that is loaded from the handle in a name, or from one without a name.
fn derived(name: Option<u32>) -> FactStatus
    ensures { result ≡ derived name }
{
    match name {
        Some(h) => FactStatus::Fresh(h),
        None => FactStatus::Loose,
    }
}

/// A pointer is loaded from the top place.
pub(crate) fn load<A: Around>(into: &mut Facts, around: &A, top: u32, class: u32, fact: Fact)
    requires room { HasRoom 3 into.old }
    ensures facts { into.new.facts ≡ into.old.facts
        ++ (at_each fact.status (load_slots class top fact.slot)
        ++ loaded (A.given around.now) top fact.status fact.slot) }
    ensures room { into.new.room ≡ into.old.room }
{
    let had = is_class(class, fact.slot);
    put_also(into, top, had, Slot::Place(top), fact.status, fact.slot);
    derive(into, around, top, fact);
}

/// The value of the top goes to the place below it and to the class.
pub(crate) fn store_pointer(into: &mut Facts, depth: u32, class: u32, fact: Fact)
    requires room { HasRoom 2 into.old }
    ensures facts { into.new.facts
        ≡ into.old.facts ++ at_each fact.status (store_slots class depth fact.slot) }
    ensures room { into.new.room ≡ into.old.room }
{
    let low = depth.saturating_sub(2);
    if is_place(depth.saturating_sub(1), fact.slot) {
        put_both(into, Slot::Place(low), Slot::Class(class), fact.status);
    } else {
        put_below(into, low, fact.status, fact.slot);
    }
}

/// The value of the top goes to the place below it.
pub(crate) fn store(into: &mut Facts, depth: u32, fact: Fact)
    requires room { HasRoom 1 into.old }
    ensures facts { into.new.facts
        ≡ into.old.facts ++ at_each fact.status (value_slots depth fact.slot) }
    ensures room { into.new.room ≡ into.old.room }
{
    let low = depth.saturating_sub(2);
    if is_place(depth.saturating_sub(1), fact.slot) {
        into.put(fact.status, Slot::Place(low));
    } else {
        put_below(into, low, fact.status, fact.slot);
    }
}

/// The top has a copy above it.
pub(crate) fn dup(into: &mut Facts, depth: u32, fact: Fact)
    requires room { HasRoom 2 into.old }
    ensures facts { into.new.facts
        ≡ into.old.facts ++ at_each fact.status (dup_slots depth fact.slot) }
    ensures room { into.new.room ≡ into.old.room }
{
    let top = is_place(depth.saturating_sub(1), fact.slot);
    put_also(into, depth, top, Slot::Place(depth), fact.status, fact.slot);
}

/// The top has a copy below the value that was under it.
pub(crate) fn tuck(into: &mut Facts, depth: u32, fact: Fact)
    requires room { HasRoom 2 into.old }
    ensures facts { into.new.facts
        ≡ into.old.facts ++ at_each fact.status (tuck_slots depth fact.slot) }
    ensures room { into.new.room ≡ into.old.room }
{
    let low = depth.saturating_sub(2);
    let top = depth.saturating_sub(1);
    if is_place(low, fact.slot) {
        into.put(fact.status, Slot::Place(top));
    } else if is_place(top, fact.slot) {
        put_both(into, Slot::Place(low), Slot::Place(depth), fact.status);
    } else {
        put_below(into, low, fact.status, fact.slot);
    }
}

/// The value of that place, counted from 1 at the top, moves to the top.
pub(crate) fn bring(into: &mut Facts, depth: u32, place: u32, fact: Fact)
    requires room { HasRoom 1 into.old }
    ensures facts { into.new.facts
        ≡ into.old.facts ++ at_each fact.status (brought_to (depth - place) (depth - 1) fact.slot) }
    ensures room { into.new.room ≡ into.old.room }
{
    let slot = brought(
        depth.saturating_sub(place),
        depth.saturating_sub(1),
        fact.slot,
    );
    into.put(fact.status, slot);
}

/// Where a slot is once the value of a place is on top.
fn brought(from: u32, top: u32, slot: Slot) -> Slot
    ensures { brought_to from top slot ≡ result ∷ [] }
{
    match slot {
        Slot::Place(place) => {
            if place == from {
                Slot::Place(top)
            } else if from < place {
                Slot::Place(place.saturating_sub(1))
            } else {
                slot
            }
        }
        Slot::Nothing | Slot::Answer | Slot::Variable(_) | Slot::Class(_) => slot,
    }
}

/// Whether a pointer has the status.
fn is_of_pointers(status: FactStatus) -> bool
    ensures { result ≡ is_of_pointers status }
{
    match status {
        FactStatus::Fresh(_)
        | FactStatus::Held
        | FactStatus::Outer
        | FactStatus::Loose
        | FactStatus::Stale => true,
        FactStatus::Reached
        | FactStatus::IsHandle
        | FactStatus::Purgeable
        | FactStatus::Hollow
        | FactStatus::SavedPurgeable => false,
    }
}

/// The pointer of one place goes to another, and what is below the other stays.
pub(crate) fn step_to(into: &mut Facts, from: u32, to: u32, fact: Fact)
    requires room { HasRoom 2 into.old }
    ensures facts { into.new.facts ≡ into.old.facts
        ++ (at_each fact.status (below to fact.slot) ++ stepped from to fact.status fact.slot) }
    ensures room { into.new.room ≡ into.old.room }
{
    put_below(into, to, fact.status, fact.slot);
    let pointer = is_of_pointers(fact.status) && is_place(from, fact.slot);
    put_if(into, pointer, fact.status, Slot::Place(to));
}

/// A pointer is moved by a number.
pub(crate) fn step(into: &mut Facts, depth: u32, pointer_first: bool, fact: Fact)
    requires room { HasRoom 2 into.old }
    ensures facts { into.new.facts ≡ into.old.facts
        ++ (at_each fact.status (below (depth - 2) fact.slot)
        ++ stepped (pointer_place pointer_first depth) (depth - 2) fact.status fact.slot) }
    ensures room { into.new.room ≡ into.old.room }
{
    let low = depth.saturating_sub(2);
    let from = if pointer_first {
        low
    } else {
        depth.saturating_sub(1)
    };
    step_to(into, from, low, fact);
}

/// The top is the result.
pub(crate) fn leave_top(into: &mut Facts, depth: u32, fact: Fact)
    requires room { HasRoom 1 into.old }
    ensures facts { into.new.facts
        ≡ into.old.facts ++ at_each fact.status (returned (depth - 1) fact.slot) }
    ensures room { into.new.room ≡ into.old.room }
{
    match fact.slot {
        Slot::Nothing | Slot::Class(_) | Slot::Variable(Variable::Global(_)) => {
            into.put(fact.status, fact.slot)
        }
        Slot::Answer | Slot::Variable(Variable::Local(_)) => {}
        Slot::Place(place) => {
            if place == depth.saturating_sub(1) {
                into.put(fact.status, Slot::Answer);
            }
        }
    }
}
