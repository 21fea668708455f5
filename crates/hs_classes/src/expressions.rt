//! The classes that expressions name.

ghost use Rattle.std.specs.Prelude.{◌≡◌, OnOk, fold};
ghost use Rattle.hs_classes.specs.Steps.{value_step, place_step, access_step};

use crate::within::Within;
use hs_base::NoMemory;
use hs_lower_expressions::Classes;
use hs_tree::{Class, Lvalue, Rvalue};

/// Adds the class of the pointer that a load or a store of the lvalue reaches.
#[tactic(auto, unfolding(crate::specs::Naming::with_access, crate::specs::Steps::program_in))]
fn access(within: &Within, classes: &mut Classes, object: &Lvalue) -> Result<(), NoMemory>
    ensures { OnOk result (classes.new ≡ access_step within.now classes.old object.now) }
{
    if within.in_slot(object) {
        return Ok(());
    }
    let program = within.program;
    match Class::of(&program.types, &program.same, &program.taken, object) {
        Some(class) => classes.add(class),
        None => Ok(()),
    }
}

/// Adds the classes that an expression names.
#[cycle(named)]
#[tactic(auto, using(crate::proofs::Equations::value_equations))]
pub(crate) fn value(within: &Within, classes: &mut Classes, e: &Rvalue) -> Result<(), NoMemory>
    ensures { OnOk result (classes.new ≡ value_step within.now classes.old e.now) }
{
    match e {
        Rvalue::Number { .. } | Rvalue::Nil { .. } => Ok(()),
        Rvalue::Load { object, .. } => {
            place(within, classes, object)?;
            access(within, classes, object)
        }
        Rvalue::Decay { array: object, .. }
        | Rvalue::Address { object, .. }
        | Rvalue::PostUpdate { target: object, .. } => place(within, classes, object),
        Rvalue::Cast { operand, .. }
        | Rvalue::ConvertNumber { operand, .. }
        | Rvalue::ConvertPointer { operand, .. }
        | Rvalue::Unary { operand, .. }
        | Rvalue::Not { operand, .. }
        | Rvalue::IsNil {
            pointer: operand,
            ..
        } => value(within, classes, operand),
        Rvalue::Arithmetic { left, right, .. }
        | Rvalue::Comparison { left, right, .. }
        | Rvalue::ComparePointers { left, right, .. }
        | Rvalue::Step { left, right, .. }
        | Rvalue::Difference { left, right, .. }
        | Rvalue::And { left, right, .. }
        | Rvalue::Or { left, right, .. } => {
            value(within, classes, left)?;
            value(within, classes, right)
        }
        Rvalue::Conditional {
            test,
            then,
            otherwise,
            ..
        } => {
            value(within, classes, test)?;
            value(within, classes, then)?;
            value(within, classes, otherwise)
        }
        Rvalue::Comma { lefts, right, .. } => {
            values(within, classes, lefts)?;
            value(within, classes, right)
        }
        Rvalue::Assign {
            target: into,
            value: from,
            ..
        } => {
            place(within, classes, into)?;
            value(within, classes, from)?;
            access(within, classes, into)
        }
        Rvalue::Update {
            target,
            value: from,
            ..
        } => {
            place(within, classes, target)?;
            value(within, classes, from)
        }
        Rvalue::Advance {
            target,
            value: from,
            ..
        } => {
            place(within, classes, target)?;
            access(within, classes, target)?;
            value(within, classes, from)
        }
        Rvalue::PostAdvance { target, .. } => {
            place(within, classes, target)?;
            access(within, classes, target)
        }
        Rvalue::Call { arguments, .. } => values(within, classes, arguments),
        Rvalue::CallRoutine { arguments, .. } => values(within, classes, arguments),
    }
}

/// Adds the classes that the address of an lvalue names.
#[cycle(named)]
#[tactic(auto, using(crate::proofs::Equations::place_equations))]
fn place(within: &Within, classes: &mut Classes, object: &Lvalue) -> Result<(), NoMemory>
    ensures { OnOk result (classes.new ≡ place_step within.now classes.old object.now) }
{
    match object {
        Lvalue::Variable { .. } | Lvalue::Literal { .. } => Ok(()),
        Lvalue::Target { pointer, .. } | Lvalue::Arrow { pointer, .. } => {
            value(within, classes, pointer)
        }
        Lvalue::Element { left, right, .. } => {
            value(within, classes, left)?;
            value(within, classes, right)
        }
        Lvalue::Member { object, .. } => place(within, classes, object),
    }
}

/// Adds the classes that expressions name, one after the other.
#[cycle(named)]
fn values(within: &Within, classes: &mut Classes, its: &[Rvalue]) -> Result<(), NoMemory>
    ensures { OnOk result (classes.new ≡ fold (value_step within.now) classes.old its.now) }
{
    for e in its {
        value(within, classes, e)?;
    }
    Ok(())
}
