//! Objects that are disposed.

ghost use Rattle.hs_roles.specs.Parts.{disposes};
ghost use Rattle.hs_state.specs.Machines.{Does, Keeps, machine_of};

use hs_heap::Pointer;
use hs_meaning::Stop;
use hs_state::Machine;
use hs_values::{Halt, Value};

/// Ends the life of an object that a routine made. Does nothing for NIL.
///
/// # Errors
///
/// `BadPointer` for anything but NIL and a pointer to the front of such an object.
pub(crate) fn dispose(machine: &mut Machine, its: &Value) -> Result<Value, Halt>
    ensures does { Does (disposes its.now (machine_of machine.old)) (machine_of machine.new) result }
    ensures keeps { Keeps machine.old machine.new }
{
    match its.as_pointer()? {
        Pointer::Nil => Ok(Value::number(0)),
        Pointer::Fixed(object, at) => match machine.objects.get(object) {
            Some(it) if it.may_be_disposed_at(at) => {
                machine.objects.end(object);
                Ok(Value::number(0))
            }
            _ => Err(Halt::Stopped(Stop::BadPointer)),
        },
        Pointer::Handle(_) | Pointer::Spot(_) => Err(Halt::Stopped(Stop::BadPointer)),
    }
}
