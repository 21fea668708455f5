//! The facts that hold before each operation.

ghost use Rattle.std.specs.Prelude.{◌≡◌, ◌≢◌, ◌<◌, ◌≤◌, ◌^◌, ℕ, Bool, IfOk, length, slice_get, suc, Some};
ghost use Rattle.hs_cuts.specs.Cuts.{IsSolved, the_task};
ghost use Rattle.hs_fact_rows.specs.Given.{IsFit};
ghost use Rattle.hs_lock_rows.specs.Knowing.{FitsChange, HasRoom, fits_prop};
ghost use Rattle.hs_lock_rows.specs.Layout.{fields, total};
ghost use Rattle.hs_lock_rows.specs.Making.{makes};
ghost use Rattle.hs_lock_rows.specs.declared.change.Change.{Change};
ghost use Rattle.hs_rows.specs.Sets.{Sets, KeepsRows, SameSize, has, width};

use crate::Change;
use crate::knowing::Point;
use crate::layout::total;
use crate::making::make;
use hs_base::NoMemory;
use hs_code::FunctionCode;
use hs_cuts::Maker;
use hs_fact_rows::{Callees, Lists, Plan};
use hs_rows::Rows;
use std::alloc::Global;

/// The changes of the operations of a function, and the rows of With and Saved before them.
#[derive(Drop)]
struct Changes<'a, C: Callees> {
    plan: Plan,
    lists: Lists<'a>,
    changes: &'a [Change],
    low: &'a Rows,
    callees: &'a C,
    ghost names: { length lists.names.now ≡ plan.names },
    ghost some: { 0 < plan.names },
    ghost names_fit: { plan.names ≤ 64 },
    ghost fields_fit: { fields plan < 2 ^ 64 },
    ghost numbers_fit: { total plan < 2 ^ 64 },
    ghost low_fits: { (at : ℕ) → at < length changes.now → IsFit plan low.now at },
    ghost changes_fit: { (at : ℕ) (its : Change) → slice_get changes.now at ≡ Some its → FitsChange plan its } by { Prim.hlevel fits_prop },
}

impl<'a, C: Callees> Maker for Changes<'a, C> {
    ghost ops = { λ it. length it.changes.now };

    ghost total = { λ it. total it.plan };

    ghost makes = { λ it. makes it.plan it.lists.names.now it.lists.slots.now (C.assigned it.callees.now) it.low.now it.changes.now };

    fn make(&self, rows: &mut Rows, at: usize, to: usize)
        requires there { at < length self.now.changes.now }
        requires from_in_range { at < rows.old.count }
        requires to_in_range { to < rows.old.count }
        requires apart { at ≢ to }
        requires room { total self.now.plan ≤ width rows.old }
        ensures made { (bits : ℕ → Bool) → ((b : ℕ) → b < total self.now.plan → bits b ≡ has rows.old at b)
            → makes self.now.plan self.now.lists.names.now self.now.lists.slots.now (C.assigned self.now.callees.now) self.now.low.now self.now.changes.now at bits (has rows.new to) }
        ensures others { KeepsRows to rows.old rows.new }
        ensures size { SameSize rows.old rows.new }
    {
        let point = Point {
            plan: self.plan,
            low: self.low,
            at,
        };
        make(
            rows,
            point,
            to,
            change_at(self.changes, at),
            self.lists,
            self.callees,
        );
    }
}

/// The change of an operation.
fn change_at(changes: &[Change], at: usize) -> Change
    requires there { at < length changes.now }
    ensures { slice_get changes.now at ≡ Some result }
{
    changes[at]
}

/// What is computed: the facts of the operations of a function that has names.
#[derive(Clone, Copy)]
pub struct LockJob<'a> {
    pub plan: Plan,
    pub lists: Lists<'a>,
    /// One for each operation.
    pub changes: &'a [Change],
    pub code: &'a FunctionCode,
    /// The facts With and Saved, which were found before.
    pub low: &'a Rows,
}

/// Finds the facts Kept, Locked, Live, Distinct and New that hold before each operation: a row for each, and one more, which is left from the work.
///
/// Example: the changes `Make { base: 0 }` and `SetName { depth: 1, name: 0, slot: 0 }` leave the name 0 live in row 2.
///
/// # Errors
///
/// `NoMemory` if memory runs out.
pub fn solve_locks<C: Callees>(alloc: Global, job: LockJob, callees: &C) -> Result<Rows, NoMemory>
    requires changes { length job.changes.now ≡ length job.code.now.ops }
    requires names { length job.lists.names.now ≡ job.plan.names }
    requires some { 0 < job.plan.names }
    requires names_fit { job.plan.names ≤ 64 }
    requires fields_fit { fields job.plan < 2 ^ 64 }
    requires numbers_fit { total job.plan < 2 ^ 64 }
    requires low_fits { (at : ℕ) → at < length job.changes.now → IsFit job.plan job.low.now at }
    requires changes_fit { (at : ℕ) (its : Change) → slice_get job.changes.now at ≡ Some its → FitsChange job.plan its }
    ensures fit { IfOk result (λ its. (at : ℕ) → at ≤ length job.entry.code.now.ops → HasRoom job.entry.plan its at) }
    ensures solved { IfOk result (IsSolved (the_task (total job.entry.plan) job.entry.code.now
        (makes job.entry.plan job.entry.lists.names.now job.entry.lists.slots.now (C.assigned callees.now) job.entry.low.now job.entry.changes.now))) }
{
    let changes = Changes {
        plan: job.plan,
        lists: job.lists,
        changes: job.changes,
        low: job.low,
        callees,
    };
    hs_cuts::solve(alloc, job.code, total(job.plan), &changes)
}
