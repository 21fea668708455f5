//! How calls begin and end (X3.159-1989 3.3.2.2).

ghost use Rattle.std.specs.Prelude.{◌≡◌, ◌<◌, ◌∷◌, length, List, OnOk};
ghost use Rattle.hs_meaning.specs.Frames.{closed, in_frame, opened};
ghost use Rattle.hs_meaning.specs.Machine.{Binding as Meant};
ghost use Rattle.hs_meaning.specs.Objects.{bindings, objects_for};
ghost use Rattle.hs_state.specs.Machines.{Does, machine_of};
ghost use Rattle.hs_state.specs.Settings.{setting_here};

use crate::parameters::give_all;
use crate::room::has_frame;
use crate::variables::{declare, end_objects};
use hs_base::NoMemory;
use hs_meaning::Stop;
use hs_state::{Machine, Setting};
use hs_tree::VariableDecl;
use hs_values::{Halt, Value};

/// Makes the frame of a call, with variables that have no values.
fn begin(
    setting: &Setting,
    machine: &mut Machine,
    variables: &[VariableDecl],
) -> Result<(), NoMemory>
    requires few { machine.old.frames < 10000 }
    ensures begins { OnOk result (machine_of machine.new ≡ in_frame (bindings setting.now.types.now (length machine.old.objects) variables.now) (objects_for setting.now.types.now variables.now) (machine_of machine.old)) }
    ensures callers { OnOk result (machine.new.locals.below ≡ machine.old.locals.top ∷ machine.old.locals.below) }
    ensures shifts { machine.new.heap.shifts ≡ machine.old.heap.shifts }
{
    machine.locals.open()?;
    declare(
        machine.alloc,
        setting,
        &mut machine.objects,
        &mut machine.locals,
        variables,
    )?;
    machine.frames += 1;
    Ok(())
}

/// Begins a call of a function with these variables, of which so many are parameters, and gives the parameters their values.
///
/// # Errors
///
/// `Frames` for more than 10000 calls at once, for more than 16777216 bytes of their objects, or for more than 4294967295 objects in a run.
/// Why a value is not stored in the object of a parameter, and `BadPointer` if values are missing, which no typed program has. `NoMemory` if
/// memory runs out.
pub fn open(
    setting: &Setting,
    machine: &mut Machine,
    parameters: u32,
    variables: &[VariableDecl],
    values: &[Value],
) -> Result<(), Halt>
    ensures does { Does (opened (setting_here setting.now) parameters variables.now values.now (machine_of machine.old)) (machine_of machine.new) result }
    ensures callers { OnOk result (machine.new.locals.below ≡ machine.old.locals.top ∷ machine.old.locals.below) }
    ensures shifts { machine.new.heap.shifts ≡ machine.old.heap.shifts }
{
    if !has_frame(setting, machine, variables) {
        return Err(Halt::Stopped(Stop::Frames));
    }
    begin(setting, machine, variables)?;
    let count = variables.len().min(parameters as usize);
    give_all(setting, machine, &variables[..count], values)
}

/// Ends the call that goes on: its objects end, and the variables are those of the caller again.
pub fn close(machine: &mut Machine)
    ensures closes { (caller : List Meant) (rest : List (List Meant)) → machine.old.locals.below ≡ caller ∷ rest → (machine_of machine.new ≡ closed caller (machine_of machine.old)) × (machine.new.locals.below ≡ rest) }
    ensures shifts { machine.new.heap.shifts ≡ machine.old.heap.shifts }
{
    end_objects(&mut machine.objects, machine.locals.items());
    machine.locals.close();
    machine.frames = machine.frames.saturating_sub(1);
}
