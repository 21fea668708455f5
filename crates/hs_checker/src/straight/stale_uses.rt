//! Counts the stale uses of a straight program.

ghost use Rattle.std.specs.Prelude.{◌≡◌, ◌≤◌, [], false, not, ◌&&◌, ◌||◌, reverse, IfOk, MatchOption, if◌then◌else◌};
ghost use Rattle.std.specs.List.{list_any};
ghost use Rattle.hs_tree.specs.Straight.Fine.{assigns as assigns_variable};
ghost use Rattle.hs_meaning.specs.Straight.StaleUses.{HasStaleUses, concerns as concerns_handle, locks as locks_handle, calls_new_handle as step_calls_new_handle, is_locked_after, expr_uses, step_uses, uses_after};
ghost use Rattle.hs_meaning.specs.Straight.Along.{is_stale_after};
ghost use Rattle.hs_checker.specs.Straight.Count.{stale_pointers, stale_uses, GoesStale, IsLastAssignment};

use crate::straight::steps::assigns;
use hs_base::NoMemory;
use hs_tree::straight::{Expr, Step, Straight};
use std::alloc::Global;

/// Whether the step locks the handle.
fn locks(step: &Step, variable: u32) -> bool
    ensures { result ≡ locks_handle variable step.now }
{
    match step {
        Step::HLock { handle, .. } => *handle == variable,
        _ => false,
    }
}

/// Whether the step assigns, locks or unlocks the handle.
fn concerns(step: &Step, variable: u32) -> bool
    ensures { result ≡ concerns_handle variable step.now }
{
    match step {
        Step::HLock { handle, .. } | Step::HUnlock { handle, .. } => *handle == variable,
        _ => assigns(variable, *step),
    }
}

/// Whether the step calls NewHandle, which may move and purge.
fn calls_new_handle(step: &Step) -> bool
    ensures { result ≡ step_calls_new_handle step.now }
{
    match step {
        Step::NewHandle { .. } => true,
        _ => false,
    }
}

/// Whether the handle is locked after the step.
fn is_locked_then(is_locked: bool, step: &Step, handle: u32) -> bool
    ensures { result ≡ (if concerns_handle handle step.now then locks_handle handle step.now else is_locked) }
{
    if concerns(step, handle) {
        locks(step, handle)
    } else {
        is_locked
    }
}

/// Whether the handle was still not assigned anew after the step.
fn is_same_then(is_same: bool, step: &Step, handle: u32) -> bool
    ensures { result ≡ (is_same && not (assigns_variable handle step.now)) }
{
    is_same && !assigns(handle, *step)
}

/// Whether a pointer is stale after the step: a call of NewHandle makes it so, unless its handle is the same and locked.
fn is_stale_then(is_stale: bool, step: &Step, is_same: bool, is_locked: bool) -> bool
    ensures { result ≡ (is_stale || (step_calls_new_handle step.now && not (is_same && is_locked))) }
{
    is_stale || (calls_new_handle(step) && !(is_same && is_locked))
}

/// Whether the last of the steps that assigns, locks or unlocks the handle locks it.
fn is_locked(done: &[Step], handle: u32) -> bool
    ensures { result ≡ is_locked_after handle (reverse done.now) }
{
    let mut is_locked = false;
    for step in done {
        is_locked = is_locked_then(is_locked, step, handle);
    }
    is_locked
}

/// Whether the pointer of the last of the steps `taken`, which is `pointer = *handle`, went stale in the steps `since`,
/// which do not assign it.
fn went_stale(taken: &[Step], handle: u32, since: &[Step]) -> bool
    ensures { GoesStale handle taken.now since.now result }
{
    let mut is_locked = is_locked(taken, handle);
    let mut is_same = true;
    let mut is_stale = false;
    for step in since {
        is_stale = is_stale_then(is_stale, step, is_same, is_locked);
        is_same = is_same_then(is_same, step, handle);
        is_locked = is_locked_then(is_locked, step, handle);
    }
    is_stale
}

/// The place of the last step that assigns the variable.
fn last_assignment(done: &[Step], variable: u32) -> Option<usize>
    ensures { MatchOption result (list_any (assigns_variable variable) done.now ≡ false) (IsLastAssignment variable done.now) }
{
    let mut last = None;
    for (place, step) in done.iter().enumerate() {
        if assigns(variable, *step) {
            last = Some(place);
        }
    }
    last
}

/// Whether the pointer is stale after the steps.
fn is_stale(done: &[Step], pointer: u32) -> bool
    ensures { result ≡ is_stale_after pointer (reverse done.now) }
{
    match last_assignment(done, pointer) {
        None => false,
        Some(place) => {
            let (taken, since) = done.split_at(place + 1);
            match done[place] {
                Step::Derive { handle, .. } => went_stale(taken, handle, since),
                _ => false,
            }
        }
    }
}

/// How many of the pointers that the expression reads through are stale after the steps: 0 or 1.
fn stale_in_expr(done: &[Step], value: &Expr) -> u64
    ensures exact { result ≡ stale_pointers (reverse done.now) (expr_uses value.now) }
    ensures at_most { result ≤ 1 }
{
    match value {
        Expr::Load { pointer, .. } => u64::from(is_stale(done, *pointer)),
        _ => 0,
    }
}

/// How many of the step's uses are stale after the steps done before it: at most 2.
fn stale_in_step(done: &[Step], step: &Step) -> u64
    ensures exact { result ≡ stale_pointers (reverse done.now) (step_uses step.now) }
    ensures at_most { result ≤ 2 }
{
    match step {
        Step::Store { pointer, value, .. } => u64::from(is_stale(done, *pointer))
            + stale_in_expr(done, value),
        Step::Set { value, .. } | Step::Putchar { value } => stale_in_expr(done, value),
        _ => 0,
    }
}

/// How many uses are stale in the steps.
fn count_stale_uses(steps: &[Step]) -> u64
    ensures { result ≡ stale_uses (uses_after [] steps.now) }
{
    let mut count = 0;
    for (place, step) in steps.iter().enumerate() {
        count += stale_in_step(&steps[..place], step);
    }
    count
}

/// The number of stale uses of a straight tree. A tree without one is safe.
///
/// Example: 1 for `p = *h; g = NewHandle(4); putchar(*p);` with h not locked.
pub fn check(_alloc: Global, straight: &Straight) -> Result<u64, NoMemory>
    ensures { IfOk result (HasStaleUses straight.now) }
{
    Ok(count_stale_uses(straight.steps.items()))
}
