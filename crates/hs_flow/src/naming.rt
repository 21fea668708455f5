//! Slots by their names.

ghost use Rattle.std.specs.Prelude.{◌≡◌, ◌&&◌, Option};
ghost use Rattle.hs_flow.specs.Given.{apart, is_name_locked, least_name, name_apart, names_slot, share_name};

use crate::slots::same_variable;
use crate::{Around, Slot};
use hs_tree::Variable;

/// Whether the name, which has that number, is a name of the slot.
fn names_slot<A: Around>(around: &A, slot: Slot, h: u32, name: Variable) -> bool
    ensures { result ≡ names_slot (A.given around.now) slot h name }
{
    match slot {
        Slot::Place(place) => around.with(place, h),
        Slot::Variable(variable) => same_variable(name, variable),
        Slot::Nothing | Slot::Answer | Slot::Class(_) => false,
    }
}

/// Whether the name is a name of the slot and is locked.
fn locks_slot<A: Around>(around: &A, slot: Slot, h: u32, name: Variable) -> bool
    ensures { result
        ≡ (names_slot (A.given around.now) slot h name && (A.given around.now).locked h) }
{
    match slot {
        Slot::Place(place) => around.with_lock(place, h),
        Slot::Variable(variable) => same_variable(name, variable) && around.locked(h),
        Slot::Nothing | Slot::Answer | Slot::Class(_) => false,
    }
}

/// Whether a name of the slot is locked.
pub(crate) fn is_name_locked<A: Around>(around: &A, slot: Slot) -> bool
    ensures { result ≡ is_name_locked (A.given around.now) slot }
{
    let names = around.names();
    'names: for (h, name) in names.iter().enumerate() {
        if locks_slot(around, slot, h as u32, *name) {
            return true;
        }
    }
    false
}

/// Whether some name of the slot is known to have no handle of the block of the name of that number.
fn name_apart<A: Around>(around: &A, slot: Slot, h: u32) -> bool
    ensures { result ≡ name_apart (A.given around.now) slot h }
{
    let names = around.names();
    'names: for (k, name) in names.iter().enumerate() {
        if names_slot(around, slot, k as u32, *name) && around.distinct(h, k as u32) {
            return true;
        }
    }
    false
}

/// Whether the name is a name of the one slot and is known to have no handle of the block of a name of the other.
fn sets_apart<A: Around>(around: &A, a: Slot, b: Slot, h: u32, name: Variable) -> bool
    ensures { result
        ≡ (names_slot (A.given around.now) a h name && name_apart (A.given around.now) b h) }
{
    names_slot(around, a, h, name) && name_apart(around, b, h)
}

/// Whether the slots are known to have no handles of one block.
pub(crate) fn apart<A: Around>(around: &A, a: Slot, b: Slot) -> bool
    ensures { result ≡ apart (A.given around.now) a b }
{
    let names = around.names();
    'names: for (h, name) in names.iter().enumerate() {
        if sets_apart(around, a, b, h as u32, *name) {
            return true;
        }
    }
    false
}

/// Whether the slots have a name in common.
pub(crate) fn share_name<A: Around>(around: &A, a: Slot, b: Slot) -> bool
    ensures { result ≡ share_name (A.given around.now) a b }
{
    let names = around.names();
    'names: for (h, name) in names.iter().enumerate() {
        if names_slot(around, a, h as u32, *name) && names_slot(around, b, h as u32, *name) {
            return true;
        }
    }
    false
}

/// The least name of a place.
pub(crate) fn least_name<A: Around>(around: &A, place: u32) -> Option<u32>
    ensures { result ≡ least_name (A.given around.now) place }
{
    let names = around.names();
    'names: for (h, name) in names.iter().enumerate() {
        if names_slot(around, Slot::Place(place), h as u32, *name) {
            return Some(h as u32);
        }
    }
    None
}
