//! What is kept of a function.

ghost use Rattle.std.specs.Prelude.{◌≡◌};
ghost use Rattle.hs_must.specs.Answers.{distinct_by, is_there, live_by, locked_by, saved_by, with_by};

use hs_fact_rows::{Plan, saved_in, with_at};
use hs_lock_rows::{Field, has_bit, has_name};
use hs_restores::Numbers;
use hs_rows::Rows;
use hs_tree::Variable;
use std::marker::Model;

/// The facts before so many operations of a function: rows of With and Saved, and rows of all others.
#[derive(Drop)]
pub(crate) struct FunctionFacts {
    pub plan: Plan,
    pub ops: usize,
    pub low: Rows,
    pub locks: Rows,
    pub slots: Numbers,
}

impl Model for FunctionFacts {
    ghost use Rattle.std.specs.Prelude.{◌≡◌, ◌≤◌, ◌<◌, ◌^◌, length};
    ghost use Rattle.hs_fact_rows.specs.Cells as cells;
    ghost use Rattle.hs_lock_rows.specs.Layout as layout;
    ghost use Rattle.hs_must.specs.Functions.{FunctionAnswers};
    ghost use Rattle.hs_rows.specs.Sets.{width};

    ghost Value = { FunctionAnswers };

    ghost view = { λ it. record { plan = it.plan; ops = it.ops; low = it.low; locks = it.locks; slots = it.slots } };

    ghost invariant = { λ it. (it.ops ≤ it.low.count) × (it.ops ≤ it.locks.count) × (it.plan.names ≤ 64) × (length it.slots ≡ it.plan.slots)
        × (cells.with_field it.plan it.plan.places < 2 ^ 64) × (cells.total it.plan < 2 ^ 64) × (cells.total it.plan ≤ width it.low)
        × (layout.fields it.plan < 2 ^ 64) × (layout.total it.plan < 2 ^ 64) × (layout.total it.plan ≤ width it.locks) };
}

impl FunctionFacts {
    /// Whether the operation and the name are there.
    fn is_there(&self, at: usize, h: usize) -> bool
        ensures { result ≡ is_there self.now at h }
    {
        at < self.ops && h < self.plan.names
    }

    /// Whether the name is locked.
    pub fn locked(&self, at: usize, h: usize) -> bool
        ensures { result ≡ locked_by self.now at h }
    {
        self.is_there(at, h) && has_name(&self.locks, self.plan, at, Field::Locked, h)
    }

    /// Whether the name is live.
    pub fn live(&self, at: usize, h: usize) -> bool
        ensures { result ≡ live_by self.now at h }
    {
        self.is_there(at, h) && has_name(&self.locks, self.plan, at, Field::Live, h)
    }

    /// Whether the names are apart.
    pub fn distinct(&self, at: usize, a: usize, b: usize) -> bool
        ensures { result ≡ distinct_by self.now at a b }
    {
        a < self.plan.names
            && a != b
            && self.is_there(at, b)
            && has_name(&self.locks, self.plan, at, Field::Apart(a), b)
    }

    /// Whether the place has the value of the name.
    pub fn with(&self, at: usize, place: usize, h: usize) -> bool
        ensures { result ≡ with_by self.now at place h }
    {
        self.is_there(at, h)
            && has_bit(
                with_at(&self.low, self.plan, at, self.plan.places, place),
                h,
            )
    }

    /// Whether the byte of the slot was read from the handle in the name.
    pub fn saved(&self, at: usize, slot: Variable, h: usize) -> bool
        ensures { result ≡ saved_by self.now at slot h }
    {
        self.is_there(at, h)
            && has_bit(saved_in(&self.low, self.plan, at, self.slots.find(slot)), h)
    }
}
