//! The classes that objects name.

ghost use Rattle.std.specs.Prelude.{◌≡◌, OnOk, fold};
ghost use Rattle.hs_meaning.specs.Classes.{class_of_scalar};
ghost use Rattle.hs_tree.specs.Kinds.{is_pointer};
ghost use Rattle.hs_classes.specs.Naming.{with_scalar};
ghost use Rattle.hs_classes.specs.Steps.{program_in, part_step, object_step, inside_step, global_step};

use hs_base::NoMemory;
use hs_lower_expressions::Classes;
use hs_scalars::Scalars;
use hs_tree::{Class, Global as Object, Part, Program, VariableDecl};
use hs_types::{FieldId, Row, TypeId, Types};
use std::alloc::Global;

/// Whether the type is one of pointers.
fn is_pointer(types: &Types, type_id: TypeId) -> bool
    ensures { result ≡ is_pointer types.now type_id }
{
    matches!(types.row(type_id), Some(Row::Pointer(_)))
}

/// The class of a scalar inside an object, by its type and the field that it is, if it is one.
fn class_of(program: &Program, type_id: TypeId, field: Option<FieldId>) -> Class
    ensures { result ≡ class_of_scalar program.now.same program.now.taken type_id field }
{
    let same = &program.same;
    match field {
        None => Class::Pointer(same.type_for(type_id)),
        Some(field) => {
            let its = same.field_for(field);
            if program.taken.has(its) {
                Class::Pointer(same.type_for(type_id))
            } else {
                Class::Field(its)
            }
        }
    }
}

/// Adds the class of a scalar inside an object, if it is a pointer.
#[tactic(auto, unfolding(crate::specs::Naming::with_scalar, crate::specs::Steps::program_in))]
pub(crate) fn scalar(
    program: &Program,
    classes: &mut Classes,
    type_id: TypeId,
    field: Option<FieldId>,
) -> Result<(), NoMemory>
    ensures { OnOk result (classes.new ≡ with_scalar (program_in program.now) classes.old type_id field) }
{
    if !is_pointer(&program.types, type_id) {
        return Ok(());
    }
    classes.add(class_of(program, type_id, field))
}

/// Adds the class of a variable that is an object of pointer type.
#[tactic(auto, unfolding(crate::specs::Naming::with_object, crate::specs::Steps::program_in))]
pub(crate) fn object(
    program: &Program,
    classes: &mut Classes,
    it: &VariableDecl,
) -> Result<(), NoMemory>
    ensures { OnOk result (classes.new ≡ object_step program.now classes.old it.now) }
{
    if !is_pointer(&program.types, it.type_id) || it.is_slot(&program.types) {
        return Ok(());
    }
    classes.add(Class::Pointer(program.same.type_for(it.type_id)))
}

/// Adds the classes of variables that are objects of pointer types.
pub(crate) fn objects(
    program: &Program,
    classes: &mut Classes,
    its: &[VariableDecl],
) -> Result<(), NoMemory>
    ensures { OnOk result (classes.new ≡ fold (object_step program.now) classes.old its.now) }
{
    for it in its {
        object(program, classes, it)?;
    }
    Ok(())
}

/// Adds the classes of all scalars of an object.
#[tactic(auto, using(crate::proofs::Equations::inside_each), unfolding(crate::specs::Steps::program_in))]
pub(crate) fn inside(
    alloc: Global,
    program: &Program,
    classes: &mut Classes,
    it: &VariableDecl,
) -> Result<(), NoMemory>
    ensures { OnOk result (classes.new ≡ inside_step program.now classes.old it.now) }
{
    let mut left = Scalars::new(alloc, &program.types, it.type_id)?;
    'scalars: while let Some(its) = left.next()? {
        scalar(program, classes, its.type_id, its.field)?;
    }
    Ok(())
}

/// Adds the classes of the scalars that start with constants.
fn parts(program: &Program, classes: &mut Classes, its: &[Part]) -> Result<(), NoMemory>
    ensures { OnOk result (classes.new ≡ fold (part_step program.now) classes.old its.now) }
{
    for it in its {
        scalar(program, classes, it.type_id, it.field)?;
    }
    Ok(())
}

/// Adds the classes that an object of the program names, unless it is a slot.
#[tactic(auto, using(crate::proofs::Equations::parts_each), unfolding(crate::specs::Naming::with_global, crate::specs::Steps::program_in))]
fn global(program: &Program, classes: &mut Classes, it: &Object) -> Result<(), NoMemory>
    ensures { OnOk result (classes.new ≡ global_step program.now classes.old it.now) }
{
    if it.variable.is_slot(&program.types) {
        return Ok(());
    }
    parts(program, classes, it.parts.items())
}

/// Adds the classes that objects of the program name.
pub(crate) fn globals(
    program: &Program,
    classes: &mut Classes,
    its: &[Object],
) -> Result<(), NoMemory>
    ensures { OnOk result (classes.new ≡ fold (global_step program.now) classes.old its.now) }
{
    for it in its {
        global(program, classes, it)?;
    }
    Ok(())
}
