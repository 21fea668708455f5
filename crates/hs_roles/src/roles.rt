//! A routine by its role.

ghost use Rattle.std.specs.Prelude.{◌≡◌, [], ◌∷◌};
ghost use Rattle.hs_meaning.specs.Accesses.{unless_stopped};
ghost use Rattle.hs_meaning.specs.Roles.{role_machine, role_stops, role_value};
ghost use Rattle.hs_roles.specs.Parts.{wanted};
ghost use Rattle.hs_state.specs.Machines.{Does, Keeps, machine_of};

use crate::allocations::{change_size, new_handle, new_pointer};
use crate::change::Change;
use crate::characters::{next, put};
use crate::handles::{change, get_size, get_state, set_state};
use crate::moves::block_move;
use crate::objects::dispose;
use crate::reshape::Reshape;
use hs_meaning::Stop;
use hs_state::Machine;
use hs_table::Role;
use hs_values::{Halt, Value};

/// Acts by a role without an argument.
fn act_alone(machine: &mut Machine, role: Role) -> Result<Value, Halt>
    ensures does { Does (wanted role [] (machine_of machine.old)) (machine_of machine.new) result }
    ensures keeps { Keeps machine.old machine.new }
{
    match role {
        Role::Getchar => Ok(next(machine)),
        _ => Err(Halt::Stopped(Stop::BadPointer)),
    }
}

/// Acts by a role of one argument.
fn act_on_one(machine: &mut Machine, role: Role, it: &Value) -> Result<Value, Halt>
    ensures does { Does (wanted role (it.now ∷ []) (machine_of machine.old)) (machine_of machine.new) result }
    ensures keeps { Keeps machine.old machine.new }
{
    match role {
        Role::NewHandle => new_handle(machine, it),
        Role::DisposeHandle => change(machine, it, Change::Dispose),
        Role::GetSize => get_size(machine, it),
        Role::Lock => change(machine, it, Change::Lock(true)),
        Role::Unlock => change(machine, it, Change::Lock(false)),
        Role::Purge => change(machine, it, Change::Purge(true)),
        Role::NoPurge => change(machine, it, Change::Purge(false)),
        Role::GetState => get_state(machine, it),
        Role::Empty => change(machine, it, Change::Empty),
        Role::NewPtr => new_pointer(machine, it),
        Role::DisposePtr => dispose(machine, it),
        Role::Putchar => put(machine, it),
        _ => Err(Halt::Stopped(Stop::BadPointer)),
    }
}

/// Acts by a role of two arguments, a handle and something else.
fn act_on_two(machine: &mut Machine, role: Role, its: &Value, it: &Value) -> Result<Value, Halt>
    ensures does { Does (wanted role (its.now ∷ it.now ∷ []) (machine_of machine.old)) (machine_of machine.new) result }
    ensures keeps { Keeps machine.old machine.new }
{
    match role {
        Role::SetSize => change_size(machine, its, it, Reshape::Resize),
        Role::SetState => set_state(machine, its, it),
        Role::Realloc => change_size(machine, its, it, Reshape::Renew),
        _ => Err(Halt::Stopped(Stop::BadPointer)),
    }
}

/// Acts by a role of three arguments.
fn act_on_three(
    machine: &mut Machine,
    role: Role,
    from: &Value,
    to: &Value,
    count: &Value,
) -> Result<Value, Halt>
    ensures does { Does (wanted role (from.now ∷ to.now ∷ count.now ∷ []) (machine_of machine.old)) (machine_of machine.new) result }
    ensures keeps { Keeps machine.old machine.new }
{
    match role {
        Role::BlockMove => block_move(machine, from, to, count),
        _ => Err(Halt::Stopped(Stop::BadPointer)),
    }
}

/// What a routine of that role does with these arguments, and what it gives. A routine that gives nothing gives 0. A plain routine, and a role
/// with other arguments, which no typed program has, stop with `BadPointer`.
///
/// # Errors
///
/// Why the arguments are not used so, in the order of the role. Nothing is changed then. `NoMemory` if memory runs out.
pub fn act(machine: &mut Machine, role: Role, values: &[Value]) -> Result<Value, Halt>
    ensures does { let m = machine_of machine.old in Does (unless_stopped (role_stops role values.now m) (role_value role values.now m) (role_machine role values.now m) m) (machine_of machine.new) result }
    ensures keeps { Keeps machine.old machine.new }
{
    match values {
        [] => act_alone(machine, role),
        [it] => act_on_one(machine, role, it),
        [its, it] => act_on_two(machine, role, its, it),
        [from, to, count] => act_on_three(machine, role, from, to, count),
        _ => Err(Halt::Stopped(Stop::BadPointer)),
    }
}
