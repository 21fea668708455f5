//! Roles that act on the block of a handle.

ghost use Rattle.std.specs.Prelude.{◌≡◌, IfOk, IfSome};
ghost use Rattle.hs_heap.specs.Blocks.{size_of, state_of};
ghost use Rattle.hs_heap.specs.Memory.{IsMade};
ghost use Rattle.hs_meaning.specs.Roles.{handle_stops};
ghost use Rattle.hs_meaning.specs.Values.{number, pointer_in, state};
ghost use Rattle.hs_roles.specs.Parts.{answers, any_block, changed_as, changes, named, sets_state};
ghost use Rattle.hs_state.specs.Machines.{Does, Keeps, machine_of};
ghost use Rattle.hs_values.specs.Answers.{or_first};

use crate::change::{Change, apply};
use hs_heap::Pointer;
use hs_meaning::Stop;
use hs_state::{Machine, stop_of};
use hs_values::{Halt, Value};

/// Returns the number of the block of a handle. NIL has none.
///
/// # Errors
///
/// `BadPointer` for a value that is no pointer. `BadHandle` for a pointer that is no handle, and for the handle of a block that was never made.
pub(crate) fn block_of(machine: &Machine, its: &Value) -> Result<Option<u32>, Stop>
    ensures names { result ≡ or_first (handle_stops any_block its.now (machine_of machine.now)) (named (pointer_in its.now)) }
    ensures made { IfOk result (λ block. IfSome block (IsMade machine.now.heap)) }
{
    match its.as_pointer()? {
        Pointer::Nil => Ok(None),
        Pointer::Handle(block) if machine.is_made(block) => Ok(Some(block)),
        Pointer::Handle(_) | Pointer::Fixed(_, _) | Pointer::Spot(_) => Err(Stop::BadHandle),
    }
}

/// Returns the same, but stops for a block that was disposed or purged.
///
/// # Errors
///
/// Those of `block_of`, and then `Disposed` and `Purged`.
pub(crate) fn standing_block(machine: &Machine, its: &Value) -> Result<Option<u32>, Stop>
    ensures names { result ≡ or_first (handle_stops state_of its.now (machine_of machine.now)) (named (pointer_in its.now)) }
    ensures made { IfOk result (λ block. IfSome block (IsMade machine.now.heap)) }
{
    let Some(block) = block_of(machine, its)? else {
        return Ok(None);
    };
    match machine.heap.state(block) {
        Ok(_) => Ok(Some(block)),
        Err(why) => Err(stop_of(why)),
    }
}

/// Changes the block of a handle. Does nothing for NIL.
///
/// # Errors
///
/// Those of `standing_block`. Nothing is changed then.
pub(crate) fn change(machine: &mut Machine, its: &Value, change: Change) -> Result<Value, Halt>
    ensures does { Does (changes (changed_as change) its.now (machine_of machine.old)) (machine_of machine.new) result }
    ensures keeps { Keeps machine.old machine.new }
{
    let Some(block) = block_of(machine, its)? else {
        return Ok(Value::number(0));
    };
    match apply(&mut machine.heap, block, change) {
        Ok(()) => Ok(Value::number(0)),
        Err(why) => Err(Halt::Stopped(stop_of(why))),
    }
}

/// Puts the attributes of the block of a handle back to those that a state byte has.
///
/// # Errors
///
/// `BadByte` for a value that is no state byte, and then those of `change`.
pub(crate) fn set_state(machine: &mut Machine, its: &Value, byte: &Value) -> Result<Value, Halt>
    ensures does { Does (sets_state its.now byte.now (machine_of machine.old)) (machine_of machine.new) result }
    ensures keeps { Keeps machine.old machine.new }
{
    let byte = byte.as_state()?;
    change(machine, its, Change::State(byte))
}

/// Returns how many bytes the block of a handle has, 0 for NIL.
///
/// # Errors
///
/// Those of `standing_block`.
pub(crate) fn get_size(machine: &Machine, its: &Value) -> Result<Value, Halt>
    ensures { let m = machine_of machine.now in Does (answers size_of number its.now m) m result }
{
    let Some(block) = block_of(machine, its)? else {
        return Ok(Value::number(0));
    };
    match machine.heap.size(block) {
        Ok(size) => Ok(Value::number(size)),
        Err(why) => Err(Halt::Stopped(stop_of(why))),
    }
}

/// Returns the state byte of the block of a handle. That of NIL has no attributes.
///
/// # Errors
///
/// Those of `standing_block`.
pub(crate) fn get_state(machine: &Machine, its: &Value) -> Result<Value, Halt>
    ensures { let m = machine_of machine.now in Does (answers state_of state its.now m) m result }
{
    let Some(block) = block_of(machine, its)? else {
        return Ok(Value::state(0));
    };
    match machine.heap.state(block) {
        Ok(byte) => Ok(Value::state(byte)),
        Err(why) => Err(Halt::Stopped(stop_of(why))),
    }
}
