//! The values of parameters.

ghost use Rattle.std.specs.Prelude.{slice_get};
ghost use Rattle.hs_meaning.specs.Frames.{given_all, given_to};
ghost use Rattle.hs_state.specs.Machines.{Does, Keeps, machine_of};
ghost use Rattle.hs_state.specs.Settings.{setting_here};

use hs_heap::Pointer;
use hs_meaning::Stop;
use hs_state::{Binding, Machine, Setting};
use hs_tree::VariableDecl;
use hs_types::TypeId;
use hs_values::{Halt, Value};

/// Gives a parameter its value: as a slot, or by a store in its object.
///
/// # Errors
///
/// Why the value is not stored. `BadPointer` if the call has no such variable. `NoMemory` if memory runs out.
fn give(
    setting: &Setting,
    machine: &mut Machine,
    place: usize,
    id: TypeId,
    value: &Value,
) -> Result<(), Halt>
    ensures does { Does (given_to (setting_here setting.now) place id value.now (slice_get machine.old.locals.top place) (machine_of machine.old)) (machine_of machine.new) result }
    ensures keeps { Keeps machine.old machine.new }
{
    let Some(binding) = machine.locals.items().get(place) else {
        return Err(Halt::Stopped(Stop::BadPointer));
    };
    match binding.place() {
        Some(object) => {
            let access = setting.access_of_type(id, setting.class_of_type(id));
            machine.put(access, Pointer::Fixed(object, 0), value)
        }
        None => {
            let value = value.copied(machine.alloc)?;
            machine.locals.set(place, Binding::slot(value));
            Ok(())
        }
    }
}

/// Gives each of the parameters its value, in order.
///
/// # Errors
///
/// Those of `give`. `BadPointer` if values are missing, which no typed program does: those before it were given then.
pub(crate) fn give_all(
    setting: &Setting,
    machine: &mut Machine,
    parameters: &[VariableDecl],
    values: &[Value],
) -> Result<(), Halt>
    ensures does { Does (given_all (setting_here setting.now) 0 parameters.now values.now (machine_of machine.old)) (machine_of machine.new) result }
    ensures keeps { Keeps machine.old machine.new }
{
    let mut place = 0;
    let mut left = values;
    'parameters: for parameter in parameters {
        let Some((value, rest)) = left.split_first() else {
            return Err(Halt::Stopped(Stop::BadPointer));
        };
        give(setting, machine, place, parameter.type_id, value)?;
        place += 1;
        left = rest;
    }
    Ok(())
}
