//! Functions of one unit or several: how many there are, and the variables of the last one.

use crate::declarations::beginning;
use crate::refusal::{Refusal, Why};
use crate::texts::units_of;
use hs_functions::functions_of;
use hs_syntax::Unit;
use hs_tree::{Function, VariableDecl};
use std::alloc::{AllocError, Global};
use std::fmt::Write;

/// The functions that units define.
fn defined_in(alloc: Global, units: &[Unit]) -> Result<Vec<Function>, Refusal> {
    let mut m = beginning(alloc, units)?;
    functions_of(alloc, &mut m, units).map_err(Refusal::from)
}

/// The functions that a text defines.
fn functions(alloc: Global, text: &str) -> Result<Vec<Function>, Refusal> {
    let units = units_of(alloc, text)?;
    defined_in(alloc, &units)
}

/// How many functions a text defines.
pub(crate) fn count(alloc: Global, text: &str) -> Result<String, Refusal> {
    let count = functions(alloc, text)?.len();
    Ok(format!(in alloc; "{count}")?)
}

/// How many parameters and how many variables the last function has.
fn variables_of(alloc: Global, its: &[Function]) -> Result<String, Refusal> {
    let Some(it) = its.last() else {
        return Err(Why::Unread.into());
    };
    let count = it.variables.items().len();
    Ok(format!(in alloc; "{} {count}", it.parameters)?)
}

/// How many parameters and how many variables the last function of a text has.
pub(crate) fn variables(alloc: Global, text: &str) -> Result<String, Refusal> {
    let its = functions(alloc, text)?;
    variables_of(alloc, &its)
}

/// Of each variable, whether its address is taken.
fn marks_text(alloc: Global, variables: &[VariableDecl]) -> Result<String, AllocError> {
    let mut text = String::from_str(alloc, "taken:")?;
    for it in variables {
        write!(text, " {}", it.taken)?;
    }
    Ok(text)
}

/// Of each variable of the last function, whether its address is taken.
fn marks_of(alloc: Global, its: &[Function]) -> Result<String, Refusal> {
    match its.last() {
        Some(it) => Ok(marks_text(alloc, it.variables.items())?),
        None => Err(Why::Unread.into()),
    }
}

/// Of each variable of the last function of a text, whether its address is taken.
pub(crate) fn marks(alloc: Global, text: &str) -> Result<String, Refusal> {
    let its = functions(alloc, text)?;
    marks_of(alloc, &its)
}
