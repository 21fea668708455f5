//! Rows that are cut until each operation gives what those after it have.

ghost use Rattle.std.specs.Prelude.{◌≡◌, ◌<◌, ◌≤◌, ◌^◌, ℕ, suc, true, false, length, slice_get, Some, IfOk};
ghost use Rattle.hs_fact_rows.specs.Cells.{total, with_field};
ghost use Rattle.hs_fact_rows.specs.Cuts.{IsTask, IsSolved, IsStanding, Visit, Visited, Passed, the_task};
ghost use Rattle.hs_fact_rows.specs.Given.{IsFit};
ghost use Rattle.hs_fact_rows.specs.Meeting.{Met, Flagged, SeenCases, row_facts, target_in};
ghost use Rattle.hs_fact_rows.specs.declared.step.Step.{Step};
ghost use Rattle.hs_rows.specs.Sets.{has, width};

use crate::callees::Callees;
use crate::giving::total;
use crate::steps::{Lists, Way, give};
use crate::{Plan, Step};
use hs_base::NoMemory;
use hs_code::{FunctionCode, succ};
use hs_rows::Rows;
use std::alloc::Global;

/// What is computed: the facts of the operations of a function.
#[derive(Clone, Copy)]
pub struct Job<'a> {
    pub plan: Plan,
    pub lists: Lists<'a>,
    /// One for each operation.
    pub steps: &'a [Step],
    pub code: &'a FunctionCode,
}

/// How many operations there are.
fn ops_of(code: &FunctionCode) -> usize
    ensures is { result ≡ length code.now.ops }
    ensures few { result < 2 ^ 32 }
{
    code.ops.items().len()
}

/// The step of an operation.
fn step_at(steps: &[Step], at: usize) -> Step
    requires there { at < length steps.now }
    ensures { slice_get steps.now at ≡ Some result }
{
    steps[at]
}

/// The target of a case that is there.
fn case_target(code: &FunctionCode, place: u32) -> Option<u32>
    ensures { result ≡ target_in (slice_get code.now.cases place) }
{
    match code.cases.items().get(place as usize) {
        Some(case) => Some(case.target),
        None => None,
    }
}

/// Meets the row of an operation with the last row, and flags it if it changed.
fn meet_next(rows: &mut Rows, plan: Plan, ops: usize, next: usize, flags: &mut [bool]) -> bool
    requires count { rows.old.count ≡ suc ops }
    requires room { total plan ≤ width rows.old }
    requires flags { length flags.old ≡ ops }
    ensures met { Met plan ops (row_facts plan ops rows.old ops) (λ r. r ≡ next) rows.old rows.new }
    ensures flagged { Flagged plan ops rows.old rows.new flags.old flags.new result }
{
    if next >= ops {
        return false;
    }
    if rows.meet(next, ops) {
        flags[next] = true;
        true
    } else {
        false
    }
}

/// The same for an operation that there may be.
fn meet_some(rows: &mut Rows, plan: Plan, ops: usize, next: Option<u32>, flags: &mut [bool]) -> bool
    requires count { rows.old.count ≡ suc ops }
    requires room { total plan ≤ width rows.old }
    requires flags { length flags.old ≡ ops }
    ensures met { Met plan ops (row_facts plan ops rows.old ops) (λ r. next ≡ Some r) rows.old rows.new }
    ensures flagged { Flagged plan ops rows.old rows.new flags.old flags.new result }
{
    match next {
        Some(next) => meet_next(rows, plan, ops, next as usize, flags),
        None => false,
    }
}

/// The same for the cases of a switch.
fn meet_cases(
    rows: &mut Rows,
    plan: Plan,
    code: &FunctionCode,
    ops: usize,
    cases: (u32, u32),
    flags: &mut [bool],
) -> bool
    requires count { rows.old.count ≡ suc ops }
    requires room { total plan ≤ width rows.old }
    requires flags { length flags.old ≡ ops }
    ensures met { Met plan ops (row_facts plan ops rows.old ops) (SeenCases code.now.cases cases.0 cases.1) rows.old rows.new }
    ensures flagged { Flagged plan ops rows.old rows.new flags.old flags.new result }
{
    let (first, end) = cases;
    let mut changed = false;
    'cases: for place in first..end {
        let case = meet_some(rows, plan, ops, case_target(code, place), flags);
        changed |= case;
    }
    changed
}

/// Cuts the rows after an operation, and flags those that changed.
fn visit<C: Callees>(rows: &mut Rows, job: Job, callees: &C, at: usize, flags: &mut [bool]) -> bool
    requires task { IsTask (the_task job.plan job.lists.names.now job.lists.slots.now job.steps.now job.code.now (C.assigned callees.now)) }
    requires count { rows.old.count ≡ suc (length job.code.now.ops) }
    requires fit { IsFit job.plan rows.old (length job.code.now.ops) }
    requires there { at < length job.code.now.ops }
    requires flags { length flags.old ≡ length job.code.now.ops }
    ensures { (its : Step) → slice_get job.entry.steps.now at ≡ Some its →
        Visit (the_task job.entry.plan job.entry.lists.names.now job.entry.lists.slots.now job.entry.steps.now job.entry.code.now (C.assigned callees.now))
        at its rows.old rows.new flags.old flags.new result }
{
    let ops = ops_of(job.code);
    let way = Way {
        plan: job.plan,
        from: at,
        to: ops,
    };
    give(rows, way, job.lists, callees, step_at(job.steps, at));
    let next = succ(job.code, at as u32);
    let one = meet_some(rows, job.plan, ops, next.next, flags);
    let two = meet_some(rows, job.plan, ops, next.jump, flags);
    let three = meet_cases(rows, job.plan, job.code, ops, next.cases, flags);
    (one | two) | three
}

/// The same, if the operation is flagged.
fn visit_if<C: Callees>(
    rows: &mut Rows,
    job: Job,
    callees: &C,
    at: usize,
    flags: &mut [bool],
) -> bool
    requires task { IsTask (the_task job.plan job.lists.names.now job.lists.slots.now job.steps.now job.code.now (C.assigned callees.now)) }
    requires count { rows.old.count ≡ suc (length job.code.now.ops) }
    requires fit { IsFit job.plan rows.old (length job.code.now.ops) }
    requires there { at < length job.code.now.ops }
    requires flags { length flags.old ≡ length job.code.now.ops }
    requires standing { IsStanding (the_task job.plan job.lists.names.now job.lists.slots.now job.steps.now job.code.now (C.assigned callees.now)) flags.old rows.old }
    ensures { Visited (the_task job.entry.plan job.entry.lists.names.now job.entry.lists.slots.now job.entry.steps.now job.entry.code.now (C.assigned callees.now))
        at rows.old rows.new flags.old flags.new result }
{
    if !flags[at] {
        return false;
    }
    flags[at] = false;
    visit(rows, job, callees, at, flags)
}

/// Visits each operation that is flagged, and answers whether a row changed.
fn pass<C: Callees>(rows: &mut Rows, job: Job, callees: &C, flags: &mut [bool]) -> bool
    requires task { IsTask (the_task job.plan job.lists.names.now job.lists.slots.now job.steps.now job.code.now (C.assigned callees.now)) }
    requires count { rows.old.count ≡ suc (length job.code.now.ops) }
    requires fit { IsFit job.plan rows.old (length job.code.now.ops) }
    requires flags { length flags.old ≡ length job.code.now.ops }
    requires standing { IsStanding (the_task job.plan job.lists.names.now job.lists.slots.now job.steps.now job.code.now (C.assigned callees.now)) flags.old rows.old }
    ensures { Passed (the_task job.entry.plan job.entry.lists.names.now job.entry.lists.slots.now job.entry.steps.now job.entry.code.now (C.assigned callees.now))
        (length job.entry.code.now.ops) rows.old rows.new flags.old flags.new result }
{
    let mut changed = false;
    'ops: for at in 0..ops_of(job.code) {
        let visited = visit_if(rows, job, callees, at, flags);
        changed |= visited;
    }
    changed
}

/// Rows with all facts, but none before the first operation, and one row more.
fn all_facts(alloc: Global, plan: Plan, ops: usize) -> Result<Rows, NoMemory>
    requires fields_fit { with_field plan plan.places < 2 ^ 64 }
    requires numbers_fit { total plan < 2 ^ 64 }
    requires few { ops < 2 ^ 32 }
    ensures count { IfOk result (λ its. its.count ≡ suc ops) }
    ensures room { IfOk result (λ its. total plan ≤ width its) }
    ensures all { IfOk result (λ its. (r b : ℕ) → 0 < r → r < ops → b < total plan → has its r b ≡ true) }
    ensures none { IfOk result (λ its. (b : ℕ) → 0 < ops → b < total plan → has its 0 b ≡ false) }
{
    let count = total(plan);
    let mut rows = Rows::new(alloc, ops + 1, count)?;
    'bits: for bit in 0..count {
        let _new = rows.put(ops, bit);
    }
    'rows: for row in 1..ops {
        rows.copy_row(row, ops);
    }
    Ok(rows)
}

/// Finds the facts that hold before each operation: a row for each, and one more, which is left from the work.
///
/// Example: the steps `Get { to: 0, .. }` of the name 0 and `Pop { base: 0 }` leave With of place 0 and name 0 in row 1, and in no other row.
///
/// # Errors
///
/// `NoMemory` if memory runs out.
pub fn solve<C: Callees>(alloc: Global, job: Job, callees: &C) -> Result<Rows, NoMemory>
    requires task { IsTask (the_task job.plan job.lists.names.now job.lists.slots.now job.steps.now job.code.now (C.assigned callees.now)) }
    requires names_fit { job.plan.names ≤ 64 }
    requires fields_fit { with_field job.plan job.plan.places < 2 ^ 64 }
    requires numbers_fit { total job.plan < 2 ^ 64 }
    ensures fit { IfOk result (λ its. (at : ℕ) → at ≤ length job.entry.code.now.ops → IsFit job.entry.plan its at) }
    ensures solved { IfOk result (IsSolved (the_task job.entry.plan job.entry.lists.names.now job.entry.lists.slots.now job.entry.steps.now job.entry.code.now
        (C.assigned callees.now))) }
{
    let ops = ops_of(job.code);
    let mut rows = all_facts(alloc, job.plan, ops)?;
    let mut flags = Vec::from_elem(alloc, true, ops)?;
    // Each pass but the last takes a fact out, so there are not so many.
    'passes: for _ in 0..u64::MAX {
        if !pass(&mut rows, job, callees, flags.as_mut_slice()) {
            return Ok(rows);
        }
    }
    Err(NoMemory)
}
