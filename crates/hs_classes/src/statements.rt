//! The classes that statements and declarations name.

ghost use Rattle.std.specs.Prelude.{◌≡◌, OnOk, fold, option_map};
ghost use Rattle.hs_tree.specs.Views.{view_right};
ghost use Rattle.hs_classes.specs.Steps.{optional_step, item_step, declaration_step, statement_step, labelled_step, block_step};

use crate::expressions::value;
use crate::objects::{inside, object};
use crate::within::Within;
use hs_base::NoMemory;
use hs_lower_expressions::Classes;
use hs_tree::{Block, Declaration, Initial, Initialised, Labelled, Rvalue, Statement};
use std::alloc::Global;

/// Adds the classes that an expression names, if there is one.
#[tactic(auto, using(crate::proofs::Equations::optional_equations))]
fn optional(within: &Within, classes: &mut Classes, e: &Option<Box<Rvalue>>) -> Result<(), NoMemory>
    ensures { OnOk result (classes.new ≡ optional_step within.now classes.old (option_map (λ it. view_right it.value) e.now)) }
{
    match e {
        Some(e) => value(within, classes, e),
        None => Ok(()),
    }
}

/// Adds the classes that the first value of a variable names, and those of what it is stored in.
#[tactic(auto, using(crate::proofs::Equations::item_equations))]
fn item(
    alloc: Global,
    within: &Within,
    classes: &mut Classes,
    it: &Initialised,
) -> Result<(), NoMemory>
    ensures { OnOk result (classes.new ≡ item_step within.now classes.old it.now) }
{
    let variable = within.local(it.variable);
    match &it.value {
        Initial::Value(e) => {
            value(within, classes, e)?;
            match variable {
                Some(variable) => object(within.program, classes, variable),
                None => Ok(()),
            }
        }
        Initial::Parts(_) => match variable {
            Some(variable) => inside(alloc, within.program, classes, variable),
            None => Ok(()),
        },
    }
}

/// Adds the classes that the variables of a declaration name.
fn items(
    alloc: Global,
    within: &Within,
    classes: &mut Classes,
    its: &[Initialised],
) -> Result<(), NoMemory>
    ensures { OnOk result (classes.new ≡ fold (item_step within.now) classes.old its.now) }
{
    for it in its {
        item(alloc, within, classes, it)?;
    }
    Ok(())
}

/// Adds the classes that a declaration names.
#[tactic(auto, using(crate::proofs::Equations::declaration_each))]
fn declaration(
    alloc: Global,
    within: &Within,
    classes: &mut Classes,
    it: &Declaration,
) -> Result<(), NoMemory>
    ensures { OnOk result (classes.new ≡ declaration_step within.now classes.old it.now) }
{
    items(alloc, within, classes, &it.items)
}

/// Adds the classes that declarations name.
fn declarations(
    alloc: Global,
    within: &Within,
    classes: &mut Classes,
    its: &[Declaration],
) -> Result<(), NoMemory>
    ensures { OnOk result (classes.new ≡ fold (declaration_step within.now) classes.old its.now) }
{
    for it in its {
        declaration(alloc, within, classes, it)?;
    }
    Ok(())
}

/// Adds the classes that a statement names.
#[cycle(named_in)]
#[tactic(auto, using(crate::proofs::Equations::statement_equations))]
fn statement(
    alloc: Global,
    within: &Within,
    classes: &mut Classes,
    it: &Statement,
) -> Result<(), NoMemory>
    ensures { OnOk result (classes.new ≡ statement_step within.now classes.old it.now) }
{
    match it {
        Statement::Block(inner) => block(alloc, within, classes, inner),
        Statement::Expression { value: e, .. } => value(within, classes, e),
        Statement::Empty(_) | Statement::Break(_) | Statement::Continue(_) => Ok(()),
        Statement::If { test, then, .. } => {
            value(within, classes, test)?;
            statement(alloc, within, classes, then)
        }
        Statement::IfElse {
            test,
            then,
            otherwise,
            ..
        } => {
            value(within, classes, test)?;
            statement(alloc, within, classes, then)?;
            statement(alloc, within, classes, otherwise)
        }
        Statement::While { test, body, .. } => {
            value(within, classes, test)?;
            statement(alloc, within, classes, body)
        }
        Statement::Do { body, test, .. } => {
            statement(alloc, within, classes, body)?;
            value(within, classes, test)
        }
        Statement::For {
            first,
            test,
            step,
            body,
            ..
        } => {
            optional(within, classes, first)?;
            optional(within, classes, test)?;
            statement(alloc, within, classes, body)?;
            optional(within, classes, step)
        }
        Statement::Switch { value: e, body, .. } => {
            value(within, classes, e)?;
            block(alloc, within, classes, body)
        }
        Statement::Return { value: e, .. } => optional(within, classes, e),
    }
}

/// Adds the classes that a block names: its declarations, and then its statements.
#[cycle(named_in)]
pub(crate) fn block(
    alloc: Global,
    within: &Within,
    classes: &mut Classes,
    it: &Block,
) -> Result<(), NoMemory>
    ensures { OnOk result (classes.new ≡ block_step within.now classes.old it.now) }
{
    declarations(alloc, within, classes, &it.declarations)?;
    statements(alloc, within, classes, &it.statements)
}

/// Adds the classes that statements name, one after the other.
#[cycle(named_in)]
fn statements(
    alloc: Global,
    within: &Within,
    classes: &mut Classes,
    its: &[Labelled],
) -> Result<(), NoMemory>
    ensures { OnOk result (classes.new ≡ fold (labelled_step within.now) classes.old its.now) }
{
    for it in its {
        statement(alloc, within, classes, &it.statement)?;
    }
    Ok(())
}
