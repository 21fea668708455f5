//! What is known before an operation, as words.

ghost use Rattle.std.specs.Prelude.{◌≡◌, ◌≢◌, ◌<◌, ◌≤◌, ℕ, ◌&&◌, Bool, List, true, false, length, nat_lt, not};
ghost use Rattle.hs_fact_rows.specs.Given.{facts_in, gone, with_of};
ghost use Rattle.hs_fact_rows.specs.declared.plan.Plan.{Plan};
ghost use Rattle.hs_lock_rows.specs.Given.{Locks, any, other};
ghost use Rattle.hs_lock_rows.specs.Knowing.{FitsChange, IsKnown, IsPoint, apart_at, argument_of, stay_at};
ghost use Rattle.hs_lock_rows.specs.Making.{Shows};
ghost use Rattle.hs_lock_rows.specs.declared.field.Field.TheVariants as field;
ghost use Rattle.hs_rows.specs.Sets.{Sets, bit_in, has};
ghost use Rattle.hs_tree.specs.declared.head.Variable.{Variable};

use crate::layout::read;
use crate::words::{all_but, all_if, both, either, has_bit, if_so, meet};
use crate::{Change, Field};
use hs_fact_rows::{Callees, Plan, is_gone, saved_at, with_at};
use hs_rows::Rows;
use hs_tree::Variable;

/// The rows before an operation: `low` has the facts With and Saved.
#[derive(Clone, Copy)]
pub(crate) struct Point<'a> {
    pub plan: Plan,
    pub low: &'a Rows,
    pub at: usize,
}

/// What a change depends on.
#[derive(Clone, Copy)]
pub(crate) struct Known {
    /// The names of the handle that the change is about.
    pub with: u64,
    /// The names that are apart from it.
    pub apart: u64,
    /// The names whose locks stay.
    pub locks: u64,
    /// The names that stay live.
    pub lives: u64,
    /// The names about which facts stay.
    pub names: u64,
    /// Whether the handle is new.
    pub new: bool,
}

/// How many values there are before a change, and the place of the handle that it is about.
fn argument(change: Change) -> (usize, usize)
    ensures { result ≡ argument_of change }
{
    match change {
        Change::SetName { depth, .. } => (depth, depth.saturating_sub(1)),
        Change::Use { depth, base }
        | Change::Lock { depth, base }
        | Change::Unlock { depth, base }
        | Change::SetState { depth, base }
        | Change::Dispose { depth, base }
        | Change::ReadState { depth, base } => (depth, base),
        Change::Pop { .. }
        | Change::Get { .. }
        | Change::SetSlot { .. }
        | Change::Dup { .. }
        | Change::Tuck { .. }
        | Change::Conv { .. }
        | Change::Bring { .. }
        | Change::Make { .. }
        | Change::Call { .. } => (0, 0),
    }
}

/// The names that are apart from a name.
#[tactic(auto, using(crate::proofs::Bits::other_turned))]
fn apart_row(rows: &Rows, point: Point, name: usize) -> u64
    requires point { IsPoint point.plan point.low.now rows.now point.at }
    requires there { name < point.plan.names }
    ensures names { (facts : Locks) → Shows point.entry.plan (has rows.now point.entry.at) facts
        → (y : ℕ) → y < point.entry.plan.names → bit_in result y ≡ (other y name && facts (field.Apart name) y) }
{
    both(
        all_but(name),
        read(rows, point.plan, point.at, Field::Apart(name)),
    )
}

/// The names that are apart from one of those.
fn apart_from(rows: &Rows, point: Point, names: u64) -> u64
    requires point { IsPoint point.plan point.low.now rows.now point.at }
    ensures { (facts : Locks) → Shows point.entry.plan (has rows.now point.entry.at) facts → (y : ℕ) → y < point.entry.plan.names
        → bit_in result y ≡ any point.entry.plan.names (λ x. bit_in names x && (other y x && facts (field.Apart x) y)) }
{
    let mut word = 0u64;
    'names: for name in 0..point.plan.names {
        let row = apart_row(rows, point, name);
        word = either(word, if_so(has_bit(names, name), row));
    }
    word
}

/// The names that the byte of a place keeps locked, if there are so many values.
pub(crate) fn kept(rows: &Rows, point: Point, depth: usize, place: usize) -> u64
    requires point { IsPoint point.plan point.low.now rows.now point.at }
    requires depth_in_range { depth ≤ point.plan.places }
    ensures { (facts : Locks) → Shows point.entry.plan (has rows.now point.entry.at) facts → (i : ℕ) → i < point.entry.plan.names
        → bit_in result i ≡ (nat_lt place depth && facts (field.KeptAt place) i) }
{
    if place < depth {
        read(rows, point.plan, point.at, Field::KeptAt(place))
    } else {
        0
    }
}

/// All names, if the value of a place is new and there are so many.
pub(crate) fn new(rows: &Rows, point: Point, depth: usize, place: usize) -> u64
    requires point { IsPoint point.plan point.low.now rows.now point.at }
    requires depth_in_range { depth ≤ point.plan.places }
    ensures { (facts : Locks) → Shows point.entry.plan (has rows.now point.entry.at) facts → (i : ℕ) → i < point.entry.plan.names
        → bit_in result i ≡ (nat_lt place depth && facts (field.NewAt place) i) }
{
    if place < depth {
        read(rows, point.plan, point.at, Field::NewAt(place))
    } else {
        0
    }
}

/// The names of a list that a call of the function does not end.
fn spared<C: Callees>(callees: &C, function: u32, list: &[Variable]) -> u64
    requires few { length list.now ≤ 64 }
    ensures { (i : ℕ) → i < length list.now → bit_in result i ≡ not (gone (C.assigned callees.now function) list.now i) }
{
    let mut word = all_if(true);
    'names: for name in 0..list.len() {
        let gone = is_gone(callees, function, list, name);
        word = both(word, kept_if(!gone, name));
    }
    word
}

/// All names, or all but that one.
fn kept_if(kept: bool, name: usize) -> u64
    requires fits { name < 64 }
    ensures its { bit_in result name ≡ kept }
    ensures others { (i : ℕ) → i < 64 → i ≢ name → bit_in result i ≡ true }
{
    either(all_if(kept), all_but(name))
}

/// The names whose locks stay at a change.
fn locks_of(rows: &Rows, point: Point, change: Change, with: u64, apart: u64) -> u64
    requires point { IsPoint point.plan point.low.now rows.now point.at }
    requires fits { FitsChange point.plan change }
    requires few { (i : ℕ) → point.plan.names ≤ i → bit_in with i ≡ false }
    requires names { (i : ℕ) → i < point.plan.names → bit_in with i ≡ with_of (facts_in point.plan point.low.now point.at) (argument_of change).0 (argument_of change).1 i }
    ensures { (names slots : List Variable) (assigned : ℕ → ℕ → Bool) (facts : Locks) → Shows point.entry.plan (has rows.now point.entry.at) facts
        → ((i : ℕ) → i < point.entry.plan.names → bit_in apart i ≡ apart_at point.entry.plan names slots assigned point.entry.low.now point.entry.at facts (argument_of change).0 (argument_of change).1 i)
        → (i : ℕ) → i < point.entry.plan.names → bit_in result i ≡ (stay_at point.entry.plan names slots assigned point.entry.low.now point.entry.at facts change).locks i }
{
    match change {
        Change::Unlock { .. } => apart,
        Change::SetState { depth, base } => {
            let saved = saved_at(point.low, point.plan, point.at, depth, base + 1);
            let restores = meet(with, saved, point.plan.names);
            either(apart, if_so(restores, kept(rows, point, depth, base + 1)))
        }
        Change::Call { unlocks, .. } => all_if(!unlocks),
        Change::Pop { .. }
        | Change::Get { .. }
        | Change::SetName { .. }
        | Change::SetSlot { .. }
        | Change::Dup { .. }
        | Change::Tuck { .. }
        | Change::Conv { .. }
        | Change::Bring { .. }
        | Change::Use { .. }
        | Change::Lock { .. }
        | Change::Dispose { .. }
        | Change::ReadState { .. }
        | Change::Make { .. } => all_if(true),
    }
}

/// The names that stay live at a change.
fn lives_of(change: Change, apart: u64) -> u64
    ensures { (plan : Plan) (names slots : List Variable) (assigned : ℕ → ℕ → Bool) (low : Sets) (at : ℕ) (facts : Locks) → plan.names ≤ 64
        → ((i : ℕ) → i < plan.names → bit_in apart i ≡ apart_at plan names slots assigned low at facts (argument_of change).0 (argument_of change).1 i)
        → (i : ℕ) → i < plan.names → bit_in result i ≡ (stay_at plan names slots assigned low at facts change).lives i }
{
    match change {
        Change::Dispose { .. } => apart,
        Change::Call { disposes, .. } => all_if(!disposes),
        Change::Pop { .. }
        | Change::Get { .. }
        | Change::SetName { .. }
        | Change::SetSlot { .. }
        | Change::Dup { .. }
        | Change::Tuck { .. }
        | Change::Conv { .. }
        | Change::Bring { .. }
        | Change::Use { .. }
        | Change::Lock { .. }
        | Change::Unlock { .. }
        | Change::SetState { .. }
        | Change::ReadState { .. }
        | Change::Make { .. } => all_if(true),
    }
}

/// The names about which facts stay at a change.
fn names_of<C: Callees>(change: Change, callees: &C, list: &[Variable]) -> u64
    requires few { length list.now ≤ 64 }
    ensures { (plan : Plan) (slots : List Variable) (low : Sets) (at : ℕ) (facts : Locks) → plan.names ≡ length list.now
        → (i : ℕ) → i < plan.names → bit_in result i ≡ (stay_at plan list.now slots (C.assigned callees.now) low at facts change).names i }
{
    match change {
        Change::SetName { name, .. } => all_but(name),
        Change::Call { function, .. } => spared(callees, function, list),
        Change::Pop { .. }
        | Change::Get { .. }
        | Change::SetSlot { .. }
        | Change::Dup { .. }
        | Change::Tuck { .. }
        | Change::Conv { .. }
        | Change::Bring { .. }
        | Change::Use { .. }
        | Change::Lock { .. }
        | Change::Unlock { .. }
        | Change::SetState { .. }
        | Change::Dispose { .. }
        | Change::ReadState { .. }
        | Change::Make { .. } => all_if(true),
    }
}

/// Finds what a change depends on.
pub(crate) fn known_at<C: Callees>(
    rows: &Rows,
    point: Point,
    change: Change,
    callees: &C,
    names: &[Variable],
) -> Known
    requires point { IsPoint point.plan point.low.now rows.now point.at }
    requires fits { FitsChange point.plan change }
    requires names { length names.now ≡ point.plan.names }
    ensures few { (i : ℕ) → point.entry.plan.names ≤ i → bit_in result.with i ≡ false }
    ensures known { (slots : List Variable) (facts : Locks) → Shows point.entry.plan (has rows.now point.entry.at) facts
        → IsKnown point.entry.plan names.now slots (C.assigned callees.now) point.entry.low.now point.entry.at facts change result }
{
    let (depth, place) = argument(change);
    let with = with_at(point.low, point.plan, point.at, depth, place);
    let apart = apart_from(rows, point, with);
    let new = has_bit(new(rows, point, depth, place), 0);
    Known {
        with,
        apart,
        locks: locks_of(rows, point, change, with, apart),
        lives: lives_of(change, apart),
        names: names_of(change, callees, names),
        new,
    }
}
