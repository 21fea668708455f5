//! Statements: how many a body has.

use crate::declarations::beginning;
use crate::refusal::{Refusal, Why};
use crate::texts::units_of;
use hs_linkage::Translator;
use hs_statements::body;
use hs_syntax::{Block, External, Unit};
use hs_types::{Integer, TypeId};
use std::alloc::Global;

/// How many statements the body of a function that returns an `int` has.
fn count_in(alloc: Global, m: &mut Translator, block: &Block) -> Result<usize, Refusal> {
    let typed = body(alloc, m, TypeId::integer(Integer::Int), block)?;
    Ok(typed.statements.len())
}

/// The body of the only function of units.
fn only_body(units: &[Unit]) -> Result<&Block, Refusal> {
    let [it] = units else {
        return Err(Why::Unread.into());
    };
    match it.externals.as_slice() {
        [External::Function { body, .. }] => Ok(body),
        _ => Err(Why::Unread.into()),
    }
}

/// How many statements the function that units are has in its body.
fn count_of(alloc: Global, units: &[Unit]) -> Result<usize, Refusal> {
    let mut m = beginning(alloc, units)?;
    count_in(alloc, &mut m, only_body(units)?)
}

/// How many statements the function that a text is has in its body.
pub(crate) fn count(alloc: Global, text: &str) -> Result<String, Refusal> {
    let units = units_of(alloc, text)?;
    let count = count_of(alloc, &units)?;
    Ok(format!(in alloc; "{count}")?)
}
