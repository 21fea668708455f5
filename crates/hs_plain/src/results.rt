//! The result of a plain routine.

ghost use Rattle.std.specs.Prelude.{◌≡◌, ◌==◌, true, false, Some};
ghost use Rattle.hs_heap.specs.Memory.{has_room};
ghost use Rattle.hs_meaning.specs.Handles.{with_block};
ghost use Rattle.hs_meaning.specs.Machine.{done};
ghost use Rattle.hs_meaning.specs.Plain.{made_size, new_value, pointer_result, result_of};
ghost use Rattle.hs_plain.specs.Steps.{cleared_block, front_of, number_if};
ghost use Rattle.hs_state.specs.Machines.{Does, Keeps, machine_of};

use crate::types::{number_kind, pointed, size_at};
use crate::words::next;
use hs_heap::{Cell, HeapEnd, Pointer, Spot};
use hs_objects::{Object, Storage};
use hs_state::Machine;
use hs_types::{TypeId, Types};
use hs_values::{Halt, Value};

/// How many bytes are made: as many as the table says, or else as the type has to which the result points, or 1 if that is not known.
fn made_size(size: u32, target: Option<u32>) -> u32
    ensures { result ≡ made_size size target }
{
    if size == 0 { target.unwrap_or(1) } else { size }
}

/// Makes a block of bytes without values, if there is room, and gives its number.
fn add_block(machine: &mut Machine, size: u32) -> Result<Option<u32>, Halt>
    ensures does { let room = has_room machine.old.heap.blocks size in Does (done (number_if room (machine_of machine.old)) (with_block room size (machine_of machine.old))) (machine_of machine.new) result }
    ensures keeps { Keeps machine.old machine.new }
{
    match machine.heap.new_block(size) {
        Ok(block) => {
            machine.blocks = block;
            Ok(Some(block))
        }
        Err(HeapEnd::Full) => Ok(None),
        Err(HeapEnd::Stopped(_) | HeapEnd::NoMemory) => Err(Halt::NoMemory),
    }
}

/// The front of a block that was just made.
fn front_of(block: u32) -> Pointer
    ensures { result ≡ front_of block }
{
    Pointer::Spot(Spot {
        block,
        life: 0,
        epoch: 0,
        offset: 0,
    })
}

/// Stores 0 in so many bytes of a block that was just made.
fn clear(machine: &mut Machine, block: u32, size: u32) -> Result<(), Halt>
    ensures does { Does (cleared_block block size (machine_of machine.old)) (machine_of machine.new) result }
    ensures keeps { Keeps machine.old machine.new }
{
    let zeros = vec![in machine.alloc; Cell::Byte(0); size as usize]?;
    machine.write(front_of(block), zeros.as_slice())
}

/// Makes a block of bytes that are 0, if there is room: its handle, or NIL.
fn new_block(machine: &mut Machine, size: u32) -> Result<Value, Halt>
    ensures does { Does (new_value true size false (machine_of machine.old)) (machine_of machine.new) result }
    ensures keeps { Keeps machine.old machine.new }
{
    let Some(block) = add_block(machine, size)? else {
        return Ok(Value::pointer(Pointer::Nil));
    };
    clear(machine, block, size)?;
    Ok(Value::pointer(Pointer::Handle(block)))
}

/// Makes an object of bytes that are 0, if there is room: a pointer to its front, or NIL.
fn new_object(machine: &mut Machine, size: u32) -> Result<Value, Halt>
    ensures does { Does (new_value false size false (machine_of machine.old)) (machine_of machine.new) result }
    ensures keeps { Keeps machine.old machine.new }
{
    if !machine.objects.has_room(size as usize) {
        return Ok(Value::pointer(Pointer::Nil));
    }
    let place = machine.objects.count() as u32;
    let zeros = vec![in machine.alloc; Cell::Byte(0); size as usize]?;
    machine
        .objects
        .push(Object::new(Storage::Allocated, zeros))?;
    Ok(Value::pointer(Pointer::Fixed(place, 0)))
}

/// A result that is a pointer to that type: NIL for the word 0, or else something new. A pointer to pointers is the handle of a block.
fn pointer_result(
    machine: &mut Machine,
    types: &Types,
    size: u32,
    target: TypeId,
    word: u32,
) -> Result<Value, Halt>
    ensures does { Does (pointer_result types.now size (Some target) (word == 0) (machine_of machine.old)) (machine_of machine.new) result }
    ensures keeps { Keeps machine.old machine.new }
{
    if word == 0 {
        return Ok(Value::pointer(Pointer::Nil));
    }
    match pointed(types, target) {
        Some(of) => new_block(machine, made_size(size, size_at(types, Some(of)))),
        None => new_object(machine, made_size(size, size_at(types, Some(target)))),
    }
}

/// The result of a routine that is declared with that type. A number or a pointer takes the next answer word.
pub(crate) fn result_of(
    machine: &mut Machine,
    types: &Types,
    size: u32,
    id: TypeId,
) -> Result<Value, Halt>
    ensures does { Does (result_of types.now size id (machine_of machine.old)) (machine_of machine.new) result }
    ensures keeps { Keeps machine.old machine.new }
{
    if let Some(kind) = number_kind(types, id) {
        return Ok(Value::number(kind.converted(next(machine))));
    }
    let Some(target) = pointed(types, id) else {
        return Ok(Value::number(0));
    };
    let word = next(machine);
    pointer_result(machine, types, size, target, word)
}
