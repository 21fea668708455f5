//! The row after a change.

ghost use Rattle.std.specs.Prelude.{◌≡◌, ◌≢◌, ◌<◌, ◌≤◌, ℕ, Bool, List, false, length};
ghost use Rattle.hs_lock_rows.specs.Given.{Locks};
ghost use Rattle.hs_lock_rows.specs.Knowing.{FitsChange, HasRoom, IsKnown, IsPoint};
ghost use Rattle.hs_lock_rows.specs.Layout.{IsField, number};
ghost use Rattle.hs_lock_rows.specs.Making.{IsMade, Popped, Shows, given_at};
ghost use Rattle.hs_lock_rows.specs.declared.change.Change.TheVariants as change;
ghost use Rattle.hs_rows.specs.Sets.{KeepsRows, SameSize, bit_in, has};
ghost use Rattle.hs_tree.specs.declared.head.Variable.{Variable};

use crate::coming::comes;
use crate::knowing::{Known, Point, known_at};
use crate::layout::{field_at, fields, first, read, total};
use crate::staying::stay;
use crate::words::{both, either};
use crate::{Change, Field};
use hs_fact_rows::{Callees, Lists, Plan, clear, with_at, write};
use hs_rows::Rows;

/// The names of a field after a change.
fn names_after<C: Callees>(
    rows: &Rows,
    point: Point,
    change: Change,
    known: Known,
    lists: Lists,
    callees: &C,
    its: Field,
) -> u64
    requires point { IsPoint point.plan point.low.now rows.now point.at }
    requires fits { FitsChange point.plan change }
    requires few { (i : ℕ) → point.plan.names ≤ i → bit_in known.with i ≡ false }
    requires there { IsField point.plan its }
    ensures { (facts : Locks) → Shows point.entry.plan (has rows.now point.entry.at) facts
        → IsKnown point.entry.plan lists.entry.names.now lists.entry.slots.now (C.assigned callees.now) point.entry.low.now point.entry.at facts change known
        → (i : ℕ) → i < point.entry.plan.names
        → bit_in result i ≡ given_at point.entry.plan lists.entry.names.now lists.entry.slots.now (C.assigned callees.now) point.entry.low.now point.entry.at change facts its i }
{
    let before = read(rows, point.plan, point.at, its);
    let stays = stay(change, known, callees, lists.slots, its);
    let new = comes(rows, point, change, known, its);
    either(both(stays, before), new)
}

/// Makes the row after a change from the row before it, field by field.
fn make_fields<C: Callees>(
    rows: &mut Rows,
    point: Point,
    to: usize,
    change: Change,
    lists: Lists,
    callees: &C,
)
    requires point { IsPoint point.plan point.low.now rows.old point.at }
    requires to_in_range { to < rows.old.count }
    requires apart { point.at ≢ to }
    requires fits { FitsChange point.plan change }
    requires names { length lists.names.now ≡ point.plan.names }
    ensures { IsMade point.entry.plan lists.entry.names.now lists.entry.slots.now (C.assigned callees.now) point.entry.low.now point.entry.at to change rows.old rows.new }
{
    let known = known_at(rows, point, change, callees, lists.names);
    'fields: for number in 0..fields(point.plan) {
        let its = field_at(point.plan, number);
        let word = names_after(rows, point, change, known, lists, callees, its);
        write(rows, to, first(point.plan, its), point.plan.names, word);
    }
}

/// Makes the row after values are taken: what is about their places ends.
fn pop(rows: &mut Rows, plan: Plan, at: usize, to: usize, base: usize)
    requires room { HasRoom plan rows.old at }
    requires to_in_range { to < rows.old.count }
    ensures popped { Popped plan to at base rows.old rows.new }
    ensures others { KeepsRows to rows.old rows.new }
    ensures size { SameSize rows.old rows.new }
{
    rows.copy_row(to, at);
    if base < plan.places {
        let first = first(plan, Field::KeptAt(base));
        clear(rows, to, first, total(plan) - first);
    }
}

/// Makes the row after a handle is used: its names are live.
fn use_handle(rows: &mut Rows, point: Point, to: usize, depth: usize, base: usize)
    requires point { IsPoint point.plan point.low.now rows.old point.at }
    requires to_in_range { to < rows.old.count }
    requires apart { point.at ≢ to }
    requires depth_in_range { depth ≤ point.plan.places }
    ensures { (names slots : List Variable) (assigned : ℕ → ℕ → Bool)
        → IsMade point.entry.plan names slots assigned point.entry.low.now point.entry.at to (change.Use depth base) rows.old rows.new }
{
    let live = read(rows, point.plan, point.at, Field::Live);
    let with = with_at(point.low, point.plan, point.at, depth, base);
    let word = either(live, with);
    pop(rows, point.plan, point.at, to, base);
    write(
        rows,
        to,
        first(point.plan, Field::Live),
        point.plan.names,
        word,
    );
}

/// Makes the row after a change from the row before it. Most operations only take values, or use a handle.
pub(crate) fn make<C: Callees>(
    rows: &mut Rows,
    point: Point,
    to: usize,
    change: Change,
    lists: Lists,
    callees: &C,
)
    requires point { IsPoint point.plan point.low.now rows.old point.at }
    requires to_in_range { to < rows.old.count }
    requires apart { point.at ≢ to }
    requires fits { FitsChange point.plan change }
    requires names { length lists.names.now ≡ point.plan.names }
    ensures { IsMade point.entry.plan lists.entry.names.now lists.entry.slots.now (C.assigned callees.now) point.entry.low.now point.entry.at to change rows.old rows.new }
{
    match change {
        Change::Pop { base } => pop(rows, point.plan, point.at, to, base),
        Change::Use { depth, base } => use_handle(rows, point, to, depth, base),
        _ => make_fields(rows, point, to, change, lists, callees),
    }
}
