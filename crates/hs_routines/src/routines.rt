//! A call of a routine.

ghost use Rattle.std.specs.Prelude.{◌≡◌, Some, slice_get};
ghost use Rattle.hs_code_run.specs.Steps.{routine_arguments};
ghost use Rattle.hs_meaning.specs.Operations.{by_role, called, called_as};
ghost use Rattle.hs_state.specs.Machines.{Does, Keeps, machine_of};
ghost use Rattle.hs_state.specs.Settings.{setting_here};

use hs_meaning::Stop;
use hs_plain::number_kind;
use hs_state::{Machine, Setting};
use hs_table::{Role, Routine};
use hs_tree::Prototype;
use hs_values::{Halt, Value};

/// How many arguments a routine takes, by its number. None for one that is not there or is not declared, which no program calls.
pub fn argument_count(setting: &Setting, place: u32) -> Option<usize>
    ensures { result ≡ routine_arguments (slice_get (setting_here setting.now).routines place) }
{
    let it = setting.routines.items().get(place as usize)?;
    let prototype = it.prototype.as_ref()?;
    Some(prototype.parameters.items().len())
}

/// A routine with a role of its own. What it gives is a number of the type with which it is declared, or 0 if it gives nothing.
fn act(
    setting: &Setting,
    machine: &mut Machine,
    role: Role,
    prototype: &Prototype,
    values: &[Value],
) -> Result<Value, Halt>
    ensures does { Does (by_role setting.now.types.now role prototype.now values.now (machine_of machine.old)) (machine_of machine.new) result }
    ensures keeps { Keeps machine.old machine.new }
{
    match hs_roles::act(machine, role, values) {
        Ok(value) => Ok(value.as_kind(number_kind(setting.types, prototype.result))),
        Err(why) => Err(why),
    }
}

/// A routine that is declared so.
fn declared(
    setting: &Setting,
    machine: &mut Machine,
    routine: &Routine,
    prototype: &Prototype,
    values: &[Value],
) -> Result<Value, Halt>
    ensures does { Does (called_as setting.now.types.now routine.now (Some prototype.now) values.now (machine_of machine.old)) (machine_of machine.new) result }
    ensures keeps { Keeps machine.old machine.new }
{
    match routine.role {
        Role::Plain => hs_plain::call(setting, machine, routine, prototype, values),
        Role::NewHandle
        | Role::DisposeHandle
        | Role::GetSize
        | Role::SetSize
        | Role::Lock
        | Role::Unlock
        | Role::Purge
        | Role::NoPurge
        | Role::GetState
        | Role::SetState
        | Role::Empty
        | Role::Realloc
        | Role::NewPtr
        | Role::DisposePtr
        | Role::BlockMove
        | Role::Getchar
        | Role::Putchar => act(setting, machine, routine.role, prototype, values),
    }
}

/// What the routine of that number does with these arguments, and what it gives.
///
/// # Errors
///
/// Why the routine stops, as its role says. `BadPointer` for a routine that is not there or is not declared, which no program calls.
/// `NoMemory` if memory runs out.
pub fn call(
    setting: &Setting,
    machine: &mut Machine,
    place: u32,
    values: &[Value],
) -> Result<Value, Halt>
    ensures does { Does (called (setting_here setting.now).types (slice_get (setting_here setting.now).routines place) values.now (machine_of machine.old)) (machine_of machine.new) result }
    ensures keeps { Keeps machine.old machine.new }
{
    let Some(it) = setting.routines.items().get(place as usize) else {
        return Err(Halt::Stopped(Stop::BadPointer));
    };
    match &it.prototype {
        Some(prototype) => declared(setting, machine, &it.routine, prototype, values),
        None => Err(Halt::Stopped(Stop::BadPointer)),
    }
}
