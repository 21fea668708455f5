//! The variables of a call, and their objects.

ghost use Rattle.std.specs.Prelude.{◌≡◌, [], ◌∷◌, ◌++◌, length, replicate, IfOk, OnOk};
ghost use Rattle.hs_frames.specs.Ending.{ended};
ghost use Rattle.hs_heap.specs.declared.cell.Cell.TheVariants.{Undefined};
ghost use Rattle.hs_meaning.specs.Machine.{automatic};
ghost use Rattle.hs_meaning.specs.Objects.{bindings, objects_for};

use hs_base::NoMemory;
use hs_heap::Cell;
use hs_layers::Layers;
use hs_objects::{Object, Objects, Storage};
use hs_state::{Binding, Setting};
use hs_tree::VariableDecl;
use std::alloc::Global;

/// The number as 32 bits.
fn number_of(count: usize) -> Result<u32, NoMemory>
    ensures { IfOk result (λ number. number ≡ count) }
{
    match u32::try_from(count) {
        Ok(number) => Ok(number),
        Err(_) => Err(NoMemory),
    }
}

/// Makes an object of so many cells without values, and returns its number.
fn new_object(alloc: Global, objects: &mut Objects, size: u32) -> Result<u32, NoMemory>
    ensures number { IfOk result (λ number. number ≡ length objects.old) }
    ensures made { OnOk result (objects.new ≡ objects.old ++ record { cells = replicate size Undefined; storage = automatic } ∷ []) }
{
    let number = number_of(objects.count())?;
    let cells = vec![in alloc; Cell::Undefined; size as usize]?;
    objects.push(Object::new(Storage::Automatic, cells))?;
    Ok(number)
}

/// Makes a variable without a value, and its object unless it is a slot.
fn new_variable(
    alloc: Global,
    setting: &Setting,
    objects: &mut Objects,
    variable: &VariableDecl,
) -> Result<Binding, NoMemory>
    ensures bindings { IfOk result (λ binding. binding ∷ [] ≡ bindings setting.now.types.now (length objects.old) (variable.now ∷ [])) }
    ensures objects { OnOk result (objects.new ≡ objects.old ++ objects_for setting.now.types.now (variable.now ∷ [])) }
{
    if variable.is_slot(setting.types) {
        return Ok(Binding::empty());
    }
    let number = new_object(alloc, objects, setting.size_of(variable.type_id))?;
    Ok(Binding::object(number))
}

/// Makes the variables of a call, which have no values.
///
/// # Errors
///
/// `NoMemory` if memory runs out, or if the number of an object has more than 32 bits.
pub(crate) fn declare(
    alloc: Global,
    setting: &Setting,
    objects: &mut Objects,
    locals: &mut Layers<Binding>,
    variables: &[VariableDecl],
) -> Result<(), NoMemory>
    ensures objects { OnOk result (objects.new ≡ objects.old ++ objects_for setting.now.types.now variables.now) }
    ensures locals { OnOk result (locals.new.top ≡ locals.old.top ++ bindings setting.now.types.now (length objects.old) variables.now) }
    ensures below { locals.new.below ≡ locals.old.below }
{
    'variables: for variable in variables {
        let binding = new_variable(alloc, setting, objects, variable)?;
        locals.push(binding)?;
    }
    Ok(())
}

/// Ends the objects of a call.
pub(crate) fn end_objects(objects: &mut Objects, locals: &[Binding])
    ensures { objects.new ≡ ended locals.now objects.old }
{
    'locals: for binding in locals {
        if let Some(place) = binding.place() {
            objects.end(place);
        }
    }
}
