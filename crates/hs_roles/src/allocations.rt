//! Roles that take memory. Each of them is an allocation, and the schedule refuses some by their numbers.

ghost use Rattle.std.specs.Prelude.{◌≡◌, IfOk, OnOk};
ghost use Rattle.hs_meaning.specs.Handles.{asked};
ghost use Rattle.hs_meaning.specs.Numbers.{signed};
ghost use Rattle.hs_roles.specs.Parts.{granted, makes_handle, makes_pointer, reshapes, size_if};
ghost use Rattle.hs_state.specs.Machines.{Does, Keeps, machine_of};

use crate::handles::standing_block;
use crate::reshape::{Reshape, reshape_block};
use hs_base::NoMemory;
use hs_heap::{Cell, HeapEnd, Pointer};
use hs_objects::{Object, Storage};
use hs_state::{Machine, stop_of};
use hs_values::{Halt, Value};

/// Returns the size that a number is. A number below 0 is not a size.
pub(crate) fn size_in(bits: u32) -> Option<u32>
    ensures { result ≡ size_if (signed bits) }
{
    (bits <= i32::MAX as u32).then_some(bits)
}

/// Counts one more allocation. Returns the size that the number is, or nothing if the allocation is refused or the number is not a size.
///
/// # Errors
///
/// `NoMemory` if the count cannot rise.
fn ask(machine: &mut Machine, bits: u32) -> Result<Option<u32>, NoMemory>
    ensures asks { OnOk result (machine_of machine.new ≡ asked (machine_of machine.old)) }
    ensures grants { IfOk result (λ size. size ≡ granted bits (machine_of machine.old)) }
    ensures same_heap { machine.new.heap ≡ machine.old.heap }
    ensures keeps { Keeps machine.old machine.new }
{
    let number = machine.allocations.checked_add(1).ok_or(NoMemory)?;
    machine.allocations = number;
    if machine.refused.has(number) {
        return Ok(None);
    }
    Ok(size_in(bits))
}

/// Makes a block, and returns its handle. Returns NIL if there is no room for it or the allocation is refused.
///
/// # Errors
///
/// Those of a value that is no number, and `NoMemory`.
pub(crate) fn new_handle(machine: &mut Machine, size: &Value) -> Result<Value, Halt>
    ensures does { Does (makes_handle size.now (machine_of machine.old)) (machine_of machine.new) result }
    ensures keeps { Keeps machine.old machine.new }
{
    let Some(size) = ask(machine, size.bits()?)? else {
        return Ok(Value::pointer(Pointer::Nil));
    };
    match machine.heap.new_block(size) {
        Ok(block) => {
            machine.blocks = block;
            Ok(Value::pointer(Pointer::Handle(block)))
        }
        Err(HeapEnd::Full) => Ok(Value::pointer(Pointer::Nil)),
        Err(HeapEnd::NoMemory) => Err(Halt::NoMemory),
        Err(HeapEnd::Stopped(why)) => Err(Halt::Stopped(stop_of(why))),
    }
}

/// Makes an object, and returns its pointer. Returns NIL if there is no room for it or the allocation is refused.
///
/// # Errors
///
/// Those of a value that is no number, and `NoMemory`.
pub(crate) fn new_pointer(machine: &mut Machine, size: &Value) -> Result<Value, Halt>
    ensures does { Does (makes_pointer size.now (machine_of machine.old)) (machine_of machine.new) result }
    ensures keeps { Keeps machine.old machine.new }
{
    let Some(size) = ask(machine, size.bits()?)? else {
        return Ok(Value::pointer(Pointer::Nil));
    };
    if !machine.objects.has_room(size as usize) {
        return Ok(Value::pointer(Pointer::Nil));
    }
    let number = machine.objects.count() as u32;
    let cells = vec![in machine.alloc; Cell::Undefined; size as usize]?;
    machine
        .objects
        .push(Object::new(Storage::Allocated, cells))?;
    Ok(Value::pointer(Pointer::Fixed(number, 0)))
}

/// Gives the block of a handle another number of bytes. Does nothing for NIL, if there is no room for them, or if the allocation is refused.
///
/// # Errors
///
/// Those of a size that is no number and those of `standing_block`. The allocation does not count then. `NoMemory`.
pub(crate) fn change_size(
    machine: &mut Machine,
    its: &Value,
    size: &Value,
    how: Reshape,
) -> Result<Value, Halt>
    ensures does { Does (reshapes how its.now size.now (machine_of machine.old)) (machine_of machine.new) result }
    ensures keeps { Keeps machine.old machine.new }
{
    let bits = size.bits()?;
    let block = standing_block(machine, its)?;
    let Some(size) = ask(machine, bits)? else {
        return Ok(Value::number(0));
    };
    let Some(block) = block else {
        return Ok(Value::number(0));
    };
    match reshape_block(&mut machine.heap, block, size, how) {
        Ok(()) | Err(HeapEnd::Full) => Ok(Value::number(0)),
        Err(HeapEnd::NoMemory) => Err(Halt::NoMemory),
        Err(HeapEnd::Stopped(why)) => Err(Halt::Stopped(stop_of(why))),
    }
}
