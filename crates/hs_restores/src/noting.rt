//! Restores of a function, as the facts of its operations show them.

ghost use Rattle.std.specs.Bool.{Decides};
ghost use Rattle.std.specs.Prelude.{◌≡◌, ◌<◌, ◌≤◌, ℕ, suc, length};
ghost use Rattle.hs_fact_rows.specs.Given.{IsFit};
ghost use Rattle.hs_restores.specs.Restoring.{AddsShown, Shows, is_set_state, note, sets_any, sets_state};
ghost use Rattle.hs_restores.specs.Stepping.{greatest, scope_in};
ghost use Rattle.hs_tree.specs.Trees.{TypedFunction};

use crate::taking::{role_at, taken};
use hs_code::{Op, Placed};
use hs_fact_rows::{Plan, shares};
use hs_rows::Rows;
use hs_table::Role;
use hs_tree::{BoundRoutine, Program};

/// Notes the operations that the rows show to be restores.
pub(crate) fn note_shown(
    program: &Program,
    ops: &[Placed],
    rows: &Rows,
    plan: Plan,
    restores: &mut [bool],
)
    requires fit { (at : ℕ) → at ≤ length ops.now → IsFit plan rows.now at }
    requires places { plan.places ≡ greatest 0 ops.now }
    requires long { length restores.old ≡ length ops.now }
    ensures { (function : TypedFunction)
        → AddsShown (scope_in program.now function) plan rows.now ops.now (length ops.now) restores.old restores.new }
{
    'ops: for (at, its) in ops.iter().enumerate() {
        let is = is_shown(program, rows, plan, at, *its);
        note_if(restores, at, is);
    }
}

/// Notes an operation, if it is so.
fn note_if(restores: &mut [bool], at: usize, is: bool)
    requires there { at < length restores.old }
    ensures { restores.new ≡ note is at restores.old }
{
    if is {
        restores[at] = true;
    }
}

/// Whether the row before an operation shows that it is a restore.
fn is_shown(program: &Program, rows: &Rows, plan: Plan, at: usize, its: Placed) -> bool
    requires fit { IsFit plan rows.now at }
    requires depth_in_range { its.places ≤ plan.places }
    ensures { (function : TypedFunction) → Decides result (Shows (scope_in program.now function) plan rows.now at its) }
{
    let depth = its.places as usize;
    let first = depth.saturating_sub(taken(program, its.op));
    sets_state(program.routines.items(), its.op)
        && shares(rows, plan, at, depth, (first, first + 1))
}

/// Whether one of the operations is a set_state.
pub(crate) fn sets_any(routines: &[BoundRoutine], ops: &[Placed]) -> bool
    ensures { result ≡ sets_any routines.now ops.now }
{
    'ops: for its in ops {
        if sets_state(routines, its.op) {
            return true;
        }
    }
    false
}

/// Whether the operation is a set_state.
fn sets_state(routines: &[BoundRoutine], op: Op) -> bool
    ensures { result ≡ sets_state routines.now op }
{
    match op {
        Op::Routine(place) => is_set_state(role_at(routines, place)),
        _ => false,
    }
}

/// Whether the role is that of set_state.
fn is_set_state(role: Option<Role>) -> bool
    ensures { result ≡ is_set_state role }
{
    matches!(role, Some(Role::SetState))
}
