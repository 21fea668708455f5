//! The restores of a program.

ghost use Rattle.std.specs.Bool.{Decides};
ghost use Rattle.std.specs.Prelude.{◌≡◌, ◌<◌, ◌≤◌, ◌+◌, ℕ, Some, IfOk, OnOk, length, slice_get};
ghost use Rattle.hs_effects.specs.Calling.{whole_of};
ghost use Rattle.hs_effects.specs.Effecting.{AreRestores, noted};
ghost use Rattle.hs_facts.specs.Effects.{IsRestoreAt};
ghost use Rattle.hs_fact_rows.specs.Cuts.{IsSolved};
ghost use Rattle.hs_fact_rows.specs.Given.{IsFit};
ghost use Rattle.hs_facts.specs.Names.{names_of};
ghost use Rattle.hs_restores.specs.Laws.Jobs.{IsFor, task_of};
ghost use Rattle.hs_restores.specs.Restoring.{IsAssigned, IsReady, Noted, assigned_of};
ghost use Rattle.hs_restores.specs.Stepping.{scope_in};
ghost use Rattle.hs_tree.specs.Views.{view_function};

use crate::assigning::Assigning;
use crate::names::names_of;
use crate::noting::{note_shown, sets_any};
use crate::numbers::Numbers;
use crate::plan::plan_of;
use crate::slots::slots_of;
use crate::stepping::{Window, greatest, part, steps_by};
use hs_base::NoMemory;
use hs_code::{Code, FunctionCode};
use hs_effects::Assignments;
use hs_fact_rows::{Job, Lists, Plan, solve};
use hs_rows::Rows;
use hs_tree::Function;
use std::alloc::Global;

/// A function of a program, with its code and its lists.
#[derive(Clone, Copy)]
pub struct Own<'a> {
    pub number: u32,
    pub function: &'a Function,
    pub code: &'a FunctionCode,
    /// Its handle names.
    pub names: &'a Numbers,
    /// The slots that it changes.
    pub slots: &'a Numbers,
}

/// The facts With and Saved of some names of a function.
#[derive(Drop)]
pub struct WindowRows {
    pub plan: Plan,
    pub rows: Rows,
}

/// The restores of a program: a row for each function, with its operations in their order.
pub(crate) fn restores_of(
    alloc: Global,
    code: &Code,
    assigned: &Assignments,
) -> Result<Vec<Vec<bool>>, NoMemory>
    requires assigned { IsAssigned (whole_of code.now) assigned.now }
    ensures { IfOk result (λ its. AreRestores (whole_of code.now) its.items) }
{
    let mut rows = Vec::new(alloc);
    'functions: for (number, own) in code.functions.iter().enumerate() {
        let number = u32::try_from(number).or(Err(NoMemory))?;
        let row = match code.program.functions.get(number as usize) {
            Some(function) => restores_in(alloc, code, number, function, own, assigned)?,
            None => Vec::new(alloc),
        };
        rows.push(row)?;
    }
    Ok(rows)
}

/// The restores of a function. Most functions put no state byte, and so have none.
fn restores_in(
    alloc: Global,
    code: &Code,
    number: u32,
    function: &Function,
    own: &FunctionCode,
    assigned: &Assignments,
) -> Result<Vec<bool>, NoMemory>
    requires of_function { slice_get code.now.program.now.functions.items number ≡ Some function.now }
    requires of_code { slice_get code.now.functions.items number ≡ Some own.now }
    requires assigned { IsAssigned (whole_of code.now) assigned.now }
    ensures { IfOk result (λ its. (at : ℕ) → Decides (noted (slice_get its.items at)) (IsRestoreAt (whole_of code.now) number at)) }
{
    if sets_any(code.program.routines.items(), own.ops.items()) {
        return restores_by_facts(alloc, code, number, function, own, assigned);
    }
    Ok(Vec::new(alloc))
}

/// The same, from its facts: so many of its names at a time as a row has bits for.
fn restores_by_facts(
    alloc: Global,
    code: &Code,
    number: u32,
    function: &Function,
    own: &FunctionCode,
    assigned: &Assignments,
) -> Result<Vec<bool>, NoMemory>
    requires of_function { slice_get code.now.program.now.functions.items number ≡ Some function.now }
    requires of_code { slice_get code.now.functions.items number ≡ Some own.now }
    requires assigned { IsAssigned (whole_of code.now) assigned.now }
    ensures { IfOk result (λ its. (at : ℕ) → Decides (noted (slice_get its.items at)) (IsRestoreAt (whole_of code.now) number at)) }
{
    let program = code.program;
    let names = names_of(alloc, program, function, own)?;
    let slots = slots_of(alloc, program, function, own, number, assigned)?;
    let callees = Assigning {
        assigned,
        functions: code.functions.len(),
        globals: program.globals.items().len(),
    };
    let its = Own {
        number,
        function,
        code: own,
        names: &names,
        slots: &slots,
    };
    let mut restores = Vec::from_elem(alloc, false, own.ops.items().len())?;
    let len = names.items().len();
    let mut from = 0;
    'windows: while from < len {
        let count = window_len(len - from);
        note_window(
            alloc,
            code,
            its,
            &callees,
            (from, count),
            restores.as_mut_slice(),
        )?;
        from += count;
    }
    Ok(restores)
}

/// How many of so many names are looked at together.
fn window_len(left: usize) -> usize
    ensures some { 0 < left → 0 < result }
    ensures few { result ≤ 64 }
    ensures fits { result ≤ left }
{
    if left < 64 { left } else { 64 }
}

/// Finds the facts With and Saved of the names of a window: its first number, and how many there are.
///
/// Example: of the window `(0, 64)` those of the first 64 names.
///
/// # Errors
///
/// `NoMemory` if memory runs out.
pub fn window_rows(
    alloc: Global,
    code: &Code,
    own: Own,
    callees: &Assigning,
    window: (usize, usize),
) -> Result<WindowRows, NoMemory>
    requires ready { IsReady (whole_of code.now) own.number (view_function own.function.now) own.code.now own.slots.now (assigned_of callees.now) }
    requires names { own.names.now ≡ names_of (scope_in code.now.program.now (view_function own.function.now)) own.code.now }
    requires fits { window.0 + window.1 ≤ length own.names.now }
    requires few { window.1 ≤ 64 }
    ensures for_window { IfOk result (λ its. IsFor (scope_in code.now.program.now (view_function own.entry.function.now)) own.entry.code.now its.plan window.0 window.1
        own.entry.slots.now (assigned_of callees.now)) }
    ensures fit { IfOk result (λ its. (at : ℕ) → at ≤ length own.entry.code.now.ops → IsFit its.plan its.rows at) }
    ensures solved { IfOk result (λ its. IsSolved (task_of (scope_in code.now.program.now (view_function own.entry.function.now)) own.entry.code.now its.plan
        window.0 window.1 own.entry.slots.now (assigned_of callees.now)) its.rows) }
{
    let (from, count) = window;
    let ops = own.code.ops.items();
    let names = Window {
        names: own.names,
        from,
        count,
    };
    let steps = steps_by(alloc, code.program, names, own.slots, ops)?;
    let slots = own.slots.items();
    let plan = plan_of(count, slots.len(), greatest(ops))?;
    let lists = Lists {
        names: part(names),
        slots,
    };
    let job = Job {
        plan,
        lists,
        steps: &steps,
        code: own.code,
    };
    let rows = solve(alloc, job, callees)?;
    Ok(WindowRows { plan, rows })
}

/// Notes the restores whose handle is in one of the names of a window: its first number, and how many there are.
fn note_window(
    alloc: Global,
    code: &Code,
    own: Own,
    callees: &Assigning,
    window: (usize, usize),
    restores: &mut [bool],
) -> Result<(), NoMemory>
    requires ready { IsReady (whole_of code.now) own.number (view_function own.function.now) own.code.now own.slots.now (assigned_of callees.now) }
    requires names { own.names.now ≡ names_of (scope_in code.now.program.now (view_function own.function.now)) own.code.now }
    requires fits { window.0 + window.1 ≤ length own.names.now }
    requires few { window.1 ≤ 64 }
    requires noted { Noted (whole_of code.now) own.number own.names.now window.0 restores.old }
    ensures { OnOk result (Noted (whole_of code.now) own.entry.number own.entry.names.now (window.0 + window.1) restores.new) }
{
    let its = window_rows(alloc, code, own, callees, window)?;
    note_shown(
        code.program,
        own.code.ops.items(),
        &its.rows,
        its.plan,
        restores,
    );
    Ok(())
}
