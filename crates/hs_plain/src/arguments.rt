//! The arguments of a plain routine, and why they are not used.

ghost use Rattle.std.specs.Prelude.{◌≡◌, [], ◌∷◌, map, option_copied, slice_get};
ghost use Rattle.hs_heap.specs.Blocks.{size_of};
ghost use Rattle.hs_heap.specs.Memory.{block_at};
ghost use Rattle.hs_meaning.specs.Handles.{handle_stop_in};
ghost use Rattle.hs_meaning.specs.Plain.{argument, argument_stops, byte_stop, gone_stop, pointer_used, pointers_used, used_stop};
ghost use Rattle.hs_meaning.specs.Stops.{stops_if};
ghost use Rattle.hs_state.specs.Machines.{machine_of};
ghost use Rattle.hs_values.specs.Answers.{or_first, or_stop};

use hs_heap::Pointer;
use hs_meaning::Stop;
use hs_objects::Objects;
use hs_state::{Machine, stop_of};
use hs_values::Value;

/// The argument of that number, counted from 1. There is no argument 0.
pub(crate) fn argument<T>(number: u32, items: &[T]) -> Option<&T>
    ensures { option_copied result ≡ argument number items.now }
{
    items.get((number as usize).checked_sub(1)?)
}

/// Tests whether the object of that number was made and has not ended.
fn use_object(objects: &Objects, object: u32) -> Result<(), Stop>
    ensures { result ≡ or_stop (gone_stop (slice_get objects.now object)) tt }
{
    match objects.get(object) {
        Some(its) if its.has_ended() => Err(Stop::Gone),
        Some(_) => Ok(()),
        None => Err(Stop::BadPointer),
    }
}

/// Tests whether the block of a handle was made, and was neither disposed nor purged.
fn use_handle(machine: &Machine, block: u32) -> Result<(), Stop>
    ensures { result ≡ or_stop (handle_stop_in size_of (block_at machine.now.heap.blocks block)) tt }
{
    if !machine.is_made(block) {
        return Err(Stop::BadHandle);
    }
    match machine.heap.size(block) {
        Ok(_) => Ok(()),
        Err(why) => Err(stop_of(why)),
    }
}

/// Tests a handle as an argument: its block first. What is filled is no handle.
fn use_argument(machine: &Machine, is_filled: bool, block: u32) -> Result<(), Stop>
    ensures { result ≡ or_first (handle_stop_in size_of (block_at machine.now.heap.blocks block) ∷ stops_if is_filled Stop.BadPointer ∷ []) tt }
{
    use_handle(machine, block)?;
    if is_filled {
        return Err(Stop::BadPointer);
    }
    Ok(())
}

/// Tests whether a pointer is used, whatever it reaches.
fn use_pointer(machine: &Machine, is_filled: bool, its: Pointer) -> Result<(), Stop>
    ensures { result ≡ or_stop (used_stop is_filled its (machine_of machine.now)) tt }
{
    match its {
        Pointer::Nil => Ok(()),
        Pointer::Fixed(object, _) => use_object(&machine.objects, object),
        Pointer::Handle(block) => use_argument(machine, is_filled, block),
        Pointer::Spot(_) => machine.current(its),
    }
}

/// Tests whether an argument is used, if it is a pointer.
fn use_value(machine: &Machine, is_filled: bool, value: &Value) -> Result<(), Stop>
    ensures { result ≡ or_stop (pointer_used is_filled value.now (machine_of machine.now)) tt }
{
    match value.as_pointer() {
        Ok(its) => use_pointer(machine, is_filled, its),
        Err(_) => Ok(()),
    }
}

/// Tests all pointers, in their order.
fn use_pointers(machine: &Machine, fills: u32, values: &[Value]) -> Result<(), Stop>
    ensures { result ≡ or_first (pointers_used fills 1 values.now (machine_of machine.now)) tt }
{
    'values: for (index, value) in values.iter().enumerate() {
        use_value(machine, index + 1 == fills as usize, value)?;
    }
    Ok(())
}

/// Tests all numbers: a state byte is used as one nowhere.
fn use_numbers(values: &[Value]) -> Result<(), Stop>
    ensures { result ≡ or_first (map byte_stop values.now) tt }
{
    'values: for value in values {
        if value.as_state().is_ok() {
            return Err(Stop::BadByte);
        }
    }
    Ok(())
}

/// Uses the arguments: first all pointers, and then all numbers. The argument of number `fills` is filled.
///
/// # Errors
///
/// The first stop of them.
#[tactic(auto, using(crate::proofs::Stopping::stops_in_first, crate::proofs::Stopping::stops_in_second))]
pub(crate) fn use_all(machine: &Machine, fills: u32, values: &[Value]) -> Result<(), Stop>
    ensures { result ≡ or_first (argument_stops fills values.now (machine_of machine.now)) tt }
{
    use_pointers(machine, fills, values)?;
    use_numbers(values)
}
