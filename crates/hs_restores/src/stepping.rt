//! The steps of a function.

ghost use Rattle.std.specs.Prelude.{◌≡◌, ◌≤◌, ◌+◌, ◌-◌, IfOk, length};
ghost use Rattle.hs_fact_rows.specs.Cells.{index_of};
ghost use Rattle.hs_fact_rows.specs.Steps.{bring_step, routine_step, set_step};
ghost use Rattle.hs_restores.specs.Laws.Numbering.{IsDistinct, is_in};
ghost use Rattle.hs_restores.specs.Stepping.{greatest, part_in, scope_in, step_by, steps_by};
ghost use Rattle.hs_tree.specs.Trees.{TypedFunction};

use crate::numbers::Numbers;
use crate::taking::{role_at, taken};
use hs_base::NoMemory;
use hs_code::{Op, Placed};
use hs_fact_rows::Step;
use hs_table::Role;
use hs_tree::{Program, Variable};
use std::alloc::Global;

/// A part of the handle names of a function: the facts of so many are computed together.
#[derive(Clone, Copy)]
pub(crate) struct Window<'a> {
    pub names: &'a Numbers,
    /// The number of the first one among the names.
    pub from: usize,
    pub count: usize,
}

/// The names of a window.
pub(crate) fn part<'a>(window: Window<'a>) -> &'a [Variable]
    requires fits { window.from + window.count ≤ length window.names.now }
    ensures { result.now ≡ part_in window.entry }
{
    let (_before, rest) = window.names.items().split_at(window.from);
    let (part, _after) = rest.split_at(window.count);
    part
}

/// Whether the variable is one of the list.
fn is_in(numbers: &Numbers, variable: Variable) -> bool
    ensures { result ≡ is_in numbers.now variable }
{
    numbers.find(variable) < numbers.items().len()
}

/// The number of a variable in the window, or the length of the window if it is not there.
fn number_in(window: Window, variable: Variable) -> usize
    requires fits { window.from + window.count ≤ length window.names.now }
    requires distinct { IsDistinct window.names.now }
    ensures { result ≡ index_of (part_in window.entry) variable }
{
    let number = window.names.find(variable);
    if number >= window.from && number - window.from < window.count {
        number - window.from
    } else {
        window.count
    }
}

/// The steps of the operations of a function, by the numbers of the names in a window and of its slots.
pub(crate) fn steps_by(
    alloc: Global,
    program: &Program,
    window: Window,
    slots: &Numbers,
    ops: &[Placed],
) -> Result<Vec<Step>, NoMemory>
    requires fits { window.from + window.count ≤ length window.names.now }
    requires distinct { IsDistinct window.names.now }
    ensures { IfOk result (λ its. (function : TypedFunction) → its.items
        ≡ steps_by (scope_in program.now function) window.entry.names.now (part_in window.entry) slots.now ops.now) }
{
    let mut steps = Vec::new(alloc);
    'ops: for its in ops {
        steps.push(step_by(program, window, slots, its.op, its.places as usize))?;
    }
    Ok(steps)
}

/// The step of an operation with so many values on the stack before it.
fn step_by(program: &Program, window: Window, slots: &Numbers, op: Op, depth: usize) -> Step
    requires fits { window.from + window.count ≤ length window.names.now }
    requires distinct { IsDistinct window.names.now }
    ensures { (function : TypedFunction) → result
        ≡ step_by (scope_in program.now function) window.entry.names.now (part_in window.entry) slots.now op depth }
{
    let base = depth.saturating_sub(taken(program, op));
    match op {
        Op::Get(variable) => Step::Get {
            to: depth,
            slot: slots.find(variable),
            name: number_in(window, variable),
        },
        Op::Set(variable) => set_step(window, slots, variable, depth),
        Op::Dup => Step::Dup { depth },
        Op::Tuck => Step::Tuck { depth },
        Op::Conv(_) => Step::Conv { depth },
        Op::Bring(place) => bring_step(depth, place as usize),
        Op::Routine(place) => routine_step(role_at(program.routines.items(), place), depth, base),
        Op::Call(function) => Step::Call { base, function },
        _ => Step::Pop { base },
    }
}

/// The step of giving the top to a variable.
fn set_step(window: Window, slots: &Numbers, variable: Variable, depth: usize) -> Step
    requires fits { window.from + window.count ≤ length window.names.now }
    requires distinct { IsDistinct window.names.now }
    ensures { result ≡ set_step (is_in window.entry.names.now variable) depth
        (index_of (part_in window.entry) variable) (index_of slots.now variable) }
{
    let name = number_in(window, variable);
    let slot = slots.find(variable);
    if is_in(window.names, variable) {
        Step::SetName { depth, name, slot }
    } else {
        Step::SetSlot { depth, slot }
    }
}

/// The step of moving a value to the top: the place is counted from 1 there.
fn bring_step(depth: usize, place: usize) -> Step
    ensures { result ≡ bring_step depth place }
{
    if place == 0 {
        Step::Pop { base: depth }
    } else {
        let base = depth.saturating_sub(place);
        Step::Bring { depth, base }
    }
}

/// The step of a routine of that role, whose arguments begin at that place.
fn routine_step(role: Option<Role>, depth: usize, base: usize) -> Step
    ensures { result ≡ routine_step role depth base }
{
    match role {
        Some(Role::GetState) => Step::ReadState { depth, base },
        _ => Step::Pop { base },
    }
}

/// The most values that are on the stack before an operation.
pub(crate) fn greatest(ops: &[Placed]) -> usize
    ensures { result ≡ greatest 0 ops.now }
{
    let mut places = 0;
    'ops: for its in ops {
        places = places.max(its.places as usize);
    }
    places
}
