//! The target that a plain routine fills.

ghost use Rattle.std.specs.Prelude.{◌≡◌, Some, option_copied};
ghost use Rattle.hs_meaning.specs.Plain.{fill_size};
ghost use Rattle.hs_meaning.specs.Values.{pointer, pointer_in};
ghost use Rattle.hs_plain.specs.Steps.{filled_target};
ghost use Rattle.hs_state.specs.Machines.{Does, Keeps, machine_of};

use crate::arguments::argument;
use crate::types::{pointed, size_at};
use crate::words::{filling, later, words_for};
use hs_heap::Pointer;
use hs_state::Machine;
use hs_types::{TypeId, Types};
use hs_values::{Halt, Value};

/// How many bytes are filled: as many as the parameter of that number points to, none if that is not known.
pub(crate) fn fill_size(types: &Types, fills: u32, ids: &[TypeId]) -> u32
    ensures { result ≡ fill_size types.now fills ids.now }
{
    match argument(fills, ids) {
        Some(id) => size_at(types, pointed(types, *id)).unwrap_or(0),
        None => 0,
    }
}

/// The pointer that an argument is. No typed program has another argument there, which counts as NIL.
fn pointer_in(value: &Value) -> Pointer
    ensures { result ≡ pointer_in value.now }
{
    value.as_pointer().unwrap_or(Pointer::Nil)
}

/// Fills so many bytes from where the pointer reaches.
fn fill_at(machine: &mut Machine, its: Pointer, size: u32) -> Result<(), Halt>
    ensures does { Does (filled_target (Some (pointer its)) size (machine_of machine.old)) (machine_of machine.new) result }
    ensures keeps { Keeps machine.old machine.new }
{
    let size = size as usize;
    let cells = filling(machine.alloc, machine.words, size)?;
    machine.write(its, cells.as_slice())?;
    machine.words = later(machine.words, words_for(size));
    Ok(())
}

/// Fills the target of the argument, if there is one, with the next answer words.
///
/// # Errors
///
/// Why the target is not reached. Nothing is changed then, and no word is taken.
pub(crate) fn fill(machine: &mut Machine, target: Option<&Value>, size: u32) -> Result<(), Halt>
    ensures does { Does (filled_target (option_copied target.entry) size (machine_of machine.old)) (machine_of machine.new) result }
    ensures keeps { Keeps machine.old machine.new }
{
    match target {
        Some(value) => fill_at(machine, pointer_in(value), size),
        None => Ok(()),
    }
}
