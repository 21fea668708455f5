//! The way of a list of initialisers through an object (X3.159-1989 3.5.7).

ghost use Rattle.std.specs.Prelude.{◌≡◌, IfOk, option_map};
ghost use Rattle.hs_aggregates.specs.Aggregates.{unfilled, most_types, reached_within, reached, whole};

use crate::aggregates::{Aggregate, Subobject, advanced, fresh, next_in, takes};
use crate::begun::Begun;
use hs_base::NoMemory;
use hs_operand_types::is_scalar;
use hs_types::Types;

/// There are no more types than that, so no object holds as many others inside one another.
fn most_types() -> u32
    ensures { result ≡ most_types }
{
    4_000_000_000
}

/// What an initialiser is for, and the aggregates that have begun then.
#[derive(Drop)]
pub struct Destination {
    pub it: Subobject,
    pub begun: Begun,
}

/// The aggregates without those that are full.
fn unfilled(types: &Types, begun: Begun) -> Result<Begun, NoMemory>
    ensures { IfOk result (λ its. its ≡ unfilled types.now begun) }
{
    let mut outer = begun;
    'full: while let Some(it) = outer.pop() {
        if next_in(types, it)?.is_some() {
            return outer.with(it);
        }
    }
    Ok(outer)
}

/// What an expression initialises in the next member, down to so many aggregates inside.
#[tactic(auto, using(crate::proofs::Reaching::reached_none, crate::proofs::Reaching::reached_here, crate::proofs::Reaching::reached_inside))]
fn reached_within(
    most: u32,
    types: &Types,
    text: bool,
    it: Aggregate,
    outer: Begun,
) -> Result<Option<Destination>, NoMemory>
    ensures { IfOk result (λ found. option_map (λ to. (to.it, to.begun)) found ≡ reached_within most types.now text it outer) }
{
    let mut left = most;
    let mut inner = it;
    let mut begun = outer;
    'inside: while left > 0 {
        left -= 1;
        let Some(next) = next_in(types, inner)? else {
            return Ok(None);
        };
        begun = begun.with(advanced(inner)?)?;
        if takes(types, text, next) {
            return Ok(Some(Destination { it: next, begun }));
        }
        inner = fresh(next);
    }
    Ok(None)
}

/// What an expression in a list initialises: the next scalar, or the next array of characters if the expression is a string.
///
/// Example: `a[0][1]` for the second number in `int a[2][2] = { 1, 2 };`.
pub fn reached(types: &Types, text: bool, begun: Begun) -> Result<Option<Destination>, NoMemory>
    ensures { IfOk result (λ found. option_map (λ to. (to.it, to.begun)) found ≡ reached types.now text begun) }
{
    let mut outer = unfilled(types, begun)?;
    match outer.pop() {
        Some(it) => reached_within(most_types(), types, text, it, outer),
        None => Ok(None),
    }
}

/// The member or element that a list in braces initialises, or `None` if nothing is left for it.
///
/// Example: `a[1]` for the second list in `{ { 1 }, { 2 } }`.
pub fn whole(types: &Types, all: Begun) -> Result<Option<Destination>, NoMemory>
    ensures { IfOk result (λ found. option_map (λ to. (to.it, to.begun)) found ≡ whole types.now all) }
{
    let mut outer = unfilled(types, all)?;
    let Some(it) = outer.pop() else {
        return Ok(None);
    };
    if is_scalar(types, it.type_id) {
        return Ok(None);
    }
    let Some(next) = next_in(types, it)? else {
        return Ok(None);
    };
    let begun = outer.with(advanced(it)?)?;
    Ok(Some(Destination { it: next, begun }))
}
