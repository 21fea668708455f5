//! Addresses of objects, and calls of routines.

ghost use Rattle.std.specs.Prelude.{◌≡◌, ◌+◌, pos, length, reverse, Err, IfOk, OnErr};
ghost use Rattle.hs_code.specs.declared.op.Op.TheVariants as op;
ghost use Rattle.hs_heap.specs.declared.cell.Pointer.TheVariants.{Fixed};
ghost use Rattle.hs_meaning.specs.Objects.{objects_for, variables_of};
ghost use Rattle.hs_meaning.specs.Values.{pointer};
ghost use Rattle.hs_operations.specs.Works.{Works, address_in, worked};
ghost use Rattle.hs_state.specs.Machines.{Does, Keeps, machine_of};
ghost use Rattle.hs_state.specs.Settings.{setting_here};
ghost use Rattle.hs_values.specs.declared.halt.Halt.TheVariants.{NoMemory as no_memory};

use crate::stacks::replace;
use hs_code::Object;
use hs_heap::Pointer;
use hs_layers::Layers;
use hs_meaning::Stop;
use hs_routines::{argument_count, call};
use hs_state::{Machine, Setting};
use hs_values::{Halt, Value};

/// The address of a string literal, if that is the number of the object of the first one.
fn literal(literals: u32, place: u32) -> Result<Value, Halt>
    ensures at { IfOk result (λ value. value ≡ pointer (Fixed (literals + place) (pos 0))) }
    ensures memory { OnErr result (result ≡ Err no_memory) }
{
    match literals.checked_add(place) {
        Some(object) => Ok(Value::pointer(Pointer::Fixed(object, 0))),
        None => Err(Halt::NoMemory),
    }
}

/// The address of an object.
pub(crate) fn address(
    setting: &Setting,
    literals: u32,
    machine: &Machine,
    its: Object,
) -> Result<Value, Halt>
    requires first { literals ≡ length (objects_for setting.now.types.now (variables_of setting.now.globals.now)) }
    ensures { Does (address_in (setting_here setting.now) its (machine_of machine.now)) (machine_of machine.now) result }
{
    match its {
        Object::Variable(name) => match machine.address(name) {
            Ok(value) => Ok(value),
            Err(why) => Err(Halt::Stopped(why)),
        },
        Object::Literal(place) => literal(literals, place),
    }
}

/// Calls the routine of that number with the values on top as its arguments.
pub(crate) fn routine(
    setting: &Setting,
    machine: &mut Machine,
    stack: &mut Layers<Value>,
    place: u32,
) -> Result<(), Halt>
    ensures works { Works (worked (setting_here setting.now) (op.Routine place) (reverse stack.old.top) (machine_of machine.old)) (reverse stack.new.top) (machine_of machine.new) result }
    ensures keeps { Keeps machine.old machine.new }
    ensures below { stack.new.below ≡ stack.old.below }
{
    let Some(count) = argument_count(setting, place) else {
        return Err(Halt::Stopped(Stop::BadPointer));
    };
    let values = stack.items();
    if values.len() < count {
        return Err(Halt::Stopped(Stop::BadPointer));
    }
    let low = values.len() - count;
    let (_, high) = values.split_at(low);
    match call(setting, machine, place, high) {
        Ok(value) => replace(stack, low, value),
        Err(why) => Err(why),
    }
}
