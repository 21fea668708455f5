//! A call of a plain routine.

ghost use Rattle.std.specs.Prelude.{◌≡◌};
ghost use Rattle.hs_meaning.specs.Plain.{plain};
ghost use Rattle.hs_state.specs.Machines.{Does, Keeps, machine_of};

use crate::arguments::{argument, use_all};
use crate::line::put_line;
use crate::results::result_of;
use crate::targets::{fill, fill_size};
use hs_state::{Machine, Setting};
use hs_table::Routine;
use hs_tree::Prototype;
use hs_values::{Halt, Value};

/// What a plain routine does with these arguments, and what it gives: it uses its pointers, puts out its name and its numbers, fills the
/// target of one argument with answer words, and gives the next answer word.
///
/// Example: for a routine `F` that takes a short and gives one, the argument -3 and the answer word 65538, the line is `F -3` and the result 2.
///
/// # Errors
///
/// Why an argument is not used so; then nothing is put out. Why the target is not filled; then the line is in the output. `NoMemory` if memory
/// runs out.
pub fn call(
    setting: &Setting,
    machine: &mut Machine,
    routine: &Routine,
    prototype: &Prototype,
    values: &[Value],
) -> Result<Value, Halt>
    ensures does { Does (plain setting.now.types.now routine.now prototype.now values.now (machine_of machine.old)) (machine_of machine.new) result }
    ensures keeps { Keeps machine.old machine.new }
{
    let types = setting.types;
    let ids = prototype.parameters.items();
    use_all(machine, routine.fills, values)?;
    put_line(
        &mut machine.output,
        routine.name.items(),
        types,
        ids,
        values,
    )?;
    let size = fill_size(types, routine.fills, ids);
    fill(machine, argument(routine.fills, values), size)?;
    result_of(machine, types, routine.size, prototype.result)
}
