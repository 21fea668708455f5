//! What comes to a field.

ghost use Rattle.std.specs.Prelude.{◌≡◌, ◌<◌, ◌≤◌, ℕ, suc, ◌^◌, ◌==◌, ◌&&◌, Bool, List, false};
ghost use Rattle.hs_fact_rows.specs.declared.plan.Plan.{Plan};
ghost use Rattle.hs_lock_rows.specs.Given.{Locks, brought};
ghost use Rattle.hs_lock_rows.specs.Knowing.{FitsChange, IsKnown, IsPoint, comes_at};
ghost use Rattle.hs_lock_rows.specs.Layout.{IsField};
ghost use Rattle.hs_lock_rows.specs.Making.{Shows};
ghost use Rattle.hs_lock_rows.specs.declared.field.Field.TheVariants as field;
ghost use Rattle.hs_rows.specs.Sets.{Sets, bit_in, has};
ghost use Rattle.hs_tree.specs.declared.head.Variable.{Variable};

use crate::knowing::{Known, Point, kept, new};
use crate::layout::read;
use crate::words::{all_if, either, has_bit, if_so, meet};
use crate::{Change, Field};
use hs_fact_rows::{one, saved_at, saved_in};
use hs_rows::Rows;

/// The name, if it is so.
fn named_if(is: bool, name: usize) -> u64
    ensures { (i : ℕ) → i < 64 → bit_in result i ≡ ((i == name) && is) }
{
    if is { one(name) } else { 0 }
}

/// The names that a byte in a slot keeps from now on.
fn kept_in_comes(rows: &Rows, point: Point, change: Change, known: Known, slot: usize) -> u64
    requires point { IsPoint point.plan point.low.now rows.now point.at }
    requires fits { FitsChange point.plan change }
    requires few { (i : ℕ) → point.plan.names ≤ i → bit_in known.with i ≡ false }
    requires there { slot ≤ point.plan.slots }
    ensures { (names slots : List Variable) (assigned : ℕ → ℕ → Bool) (facts : Locks) → Shows point.entry.plan (has rows.now point.entry.at) facts
        → IsKnown point.entry.plan names slots assigned point.entry.low.now point.entry.at facts change known
        → (i : ℕ) → i < point.entry.plan.names → bit_in result i ≡ comes_at point.entry.plan names slots assigned point.entry.low.now point.entry.at facts change (field.KeptIn slot) i }
{
    match change {
        Change::SetName {
            name,
            slot: other,
            ..
        } => {
            let its = read(rows, point.plan, point.at, Field::KeptIn(slot));
            let met = meet(known.with, its, point.plan.names);
            named_if((slot != other) & met, name)
        }
        Change::SetSlot { depth, slot: other } => {
            let top = kept(rows, point, depth, depth.saturating_sub(1));
            if_so(slot == other, top)
        }
        Change::Lock { .. } => {
            let saved = saved_in(point.low, point.plan, point.at, slot);
            let met = meet(saved, known.apart, point.plan.names);
            both_if(known.with, met)
        }
        Change::Pop { .. }
        | Change::Get { .. }
        | Change::Dup { .. }
        | Change::Tuck { .. }
        | Change::Conv { .. }
        | Change::Bring { .. }
        | Change::Use { .. }
        | Change::Unlock { .. }
        | Change::SetState { .. }
        | Change::Dispose { .. }
        | Change::ReadState { .. }
        | Change::Make { .. }
        | Change::Call { .. } => 0,
    }
}

/// The word, if it is so.
#[tactic(auto, using(crate::proofs::Bits::and_none, crate::proofs::Bits::and_all, crate::proofs::Bits::none_in))]
fn both_if(word: u64, is: bool) -> u64
    ensures { (i : ℕ) → bit_in result i ≡ (bit_in word i && is) }
{
    if is { word } else { 0 }
}

/// The names that the byte of a place keeps from now on.
fn kept_at_comes(rows: &Rows, point: Point, change: Change, known: Known, place: usize) -> u64
    requires point { IsPoint point.plan point.low.now rows.now point.at }
    requires fits { FitsChange point.plan change }
    requires few { (i : ℕ) → point.plan.names ≤ i → bit_in known.with i ≡ false }
    requires there { place < point.plan.places }
    ensures { (names slots : List Variable) (assigned : ℕ → ℕ → Bool) (facts : Locks) → Shows point.entry.plan (has rows.now point.entry.at) facts
        → IsKnown point.entry.plan names slots assigned point.entry.low.now point.entry.at facts change known
        → (i : ℕ) → i < point.entry.plan.names → bit_in result i ≡ comes_at point.entry.plan names slots assigned point.entry.low.now point.entry.at facts change (field.KeptAt place) i }
{
    match change {
        Change::Get { to, slot } => {
            let its = read(rows, point.plan, point.at, Field::KeptIn(slot));
            if_so(place == to, its)
        }
        Change::SetName { depth, name, .. } => {
            let its = kept(rows, point, depth, place);
            let met = meet(known.with, its, point.plan.names);
            named_if(met, name)
        }
        Change::Dup { depth } => {
            let top = kept(rows, point, depth, depth.saturating_sub(1));
            if_so(place == depth, top)
        }
        Change::Tuck { depth } => {
            let top = depth.saturating_sub(1);
            let low = depth.saturating_sub(2);
            let upper = kept(rows, point, depth, top);
            let lower = kept(rows, point, depth, low);
            either(
                if_so(place == low, upper),
                either(if_so(place == top, lower), if_so(place == depth, upper)),
            )
        }
        Change::Conv { depth } => {
            let top = depth.saturating_sub(1);
            let its = kept(rows, point, depth, top);
            if_so(place == top, its)
        }
        Change::Bring { depth, base } => {
            let below = kept(rows, point, depth, base);
            let above = kept(rows, point, depth, place + 1);
            brought(depth, base, place, below, above)
        }
        Change::Lock { depth, base } => {
            let saved = saved_at(point.low, point.plan, point.at, depth, place);
            let met = meet(saved, known.apart, point.plan.names);
            both_if(known.with, (place < base) & met)
        }
        Change::ReadState { base, .. } => {
            let its = read(rows, point.plan, point.at, Field::Locked);
            if_so(place == base, its)
        }
        Change::Pop { .. }
        | Change::SetSlot { .. }
        | Change::Use { .. }
        | Change::Unlock { .. }
        | Change::SetState { .. }
        | Change::Dispose { .. }
        | Change::Make { .. }
        | Change::Call { .. } => 0,
    }
}

/// The bits of a place after the value of the base went to the top.
fn brought(depth: usize, base: usize, place: usize, below: u64, above: u64) -> u64
    requires next_fits { suc place < 2 ^ 64 }
    ensures { (its : ℕ → Bool) (i : ℕ) → bit_in below i ≡ its base → bit_in above i ≡ its (suc place)
        → bit_in result i ≡ brought depth base its place }
{
    let is_top = place == depth.saturating_sub(1);
    let moves = base <= place && place + 1 < depth;
    either(if_so(is_top, below), if_so(moves, above))
}

/// The names that are locked from now on.
fn locked_comes(rows: &Rows, point: Point, change: Change, known: Known) -> u64
    requires point { IsPoint point.plan point.low.now rows.now point.at }
    requires few { (i : ℕ) → point.plan.names ≤ i → bit_in known.with i ≡ false }
    ensures { (names slots : List Variable) (assigned : ℕ → ℕ → Bool) (facts : Locks) → Shows point.entry.plan (has rows.now point.entry.at) facts
        → IsKnown point.entry.plan names slots assigned point.entry.low.now point.entry.at facts change known
        → (i : ℕ) → i < point.entry.plan.names → bit_in result i ≡ comes_at point.entry.plan names slots assigned point.entry.low.now point.entry.at facts change field.Locked i }
{
    match change {
        Change::SetName { name, .. } => {
            let its = read(rows, point.plan, point.at, Field::Locked);
            let met = meet(known.with, its, point.plan.names);
            named_if(met, name)
        }
        Change::Lock { .. } => known.with,
        Change::Pop { .. }
        | Change::Get { .. }
        | Change::SetSlot { .. }
        | Change::Dup { .. }
        | Change::Tuck { .. }
        | Change::Conv { .. }
        | Change::Bring { .. }
        | Change::Use { .. }
        | Change::Unlock { .. }
        | Change::SetState { .. }
        | Change::Dispose { .. }
        | Change::ReadState { .. }
        | Change::Make { .. }
        | Change::Call { .. } => 0,
    }
}

/// The names that are live from now on.
fn live_comes(rows: &Rows, point: Point, change: Change, known: Known) -> u64
    requires point { IsPoint point.plan point.low.now rows.now point.at }
    requires few { (i : ℕ) → point.plan.names ≤ i → bit_in known.with i ≡ false }
    ensures { (names slots : List Variable) (assigned : ℕ → ℕ → Bool) (facts : Locks) → Shows point.entry.plan (has rows.now point.entry.at) facts
        → IsKnown point.entry.plan names slots assigned point.entry.low.now point.entry.at facts change known
        → (i : ℕ) → i < point.entry.plan.names → bit_in result i ≡ comes_at point.entry.plan names slots assigned point.entry.low.now point.entry.at facts change field.Live i }
{
    match change {
        Change::SetName { name, .. } => {
            let its = read(rows, point.plan, point.at, Field::Live);
            let met = meet(known.with, its, point.plan.names);
            named_if(known.new | met, name)
        }
        Change::Use { .. }
        | Change::Lock { .. }
        | Change::Unlock { .. }
        | Change::SetState { .. }
        | Change::ReadState { .. } => known.with,
        Change::Pop { .. }
        | Change::Get { .. }
        | Change::SetSlot { .. }
        | Change::Dup { .. }
        | Change::Tuck { .. }
        | Change::Conv { .. }
        | Change::Bring { .. }
        | Change::Dispose { .. }
        | Change::Make { .. }
        | Change::Call { .. } => 0,
    }
}

/// The names that are apart from a name from now on.
fn apart_comes(change: Change, known: Known, of: usize) -> u64
    requires fits { of < 64 }
    ensures { (plan : Plan) (names slots : List Variable) (assigned : ℕ → ℕ → Bool) (low : Sets) (at : ℕ) (facts : Locks)
        → of < plan.names → plan.names ≤ 64 → IsKnown plan names slots assigned low at facts change known
        → (i : ℕ) → i < plan.names → bit_in result i ≡ comes_at plan names slots assigned low at facts change (field.Apart of) i }
{
    match change {
        Change::SetName { name, .. } => {
            let apart = either(all_if(known.new), known.apart);
            let has = has_bit(apart, of);
            either(if_so(of == name, apart), named_if(has, name))
        }
        Change::Pop { .. }
        | Change::Get { .. }
        | Change::SetSlot { .. }
        | Change::Dup { .. }
        | Change::Tuck { .. }
        | Change::Conv { .. }
        | Change::Bring { .. }
        | Change::Use { .. }
        | Change::Lock { .. }
        | Change::Unlock { .. }
        | Change::SetState { .. }
        | Change::Dispose { .. }
        | Change::ReadState { .. }
        | Change::Make { .. }
        | Change::Call { .. } => 0,
    }
}

/// All names, if the value of a place is new from now on.
fn new_comes(rows: &Rows, point: Point, change: Change, place: usize) -> u64
    requires point { IsPoint point.plan point.low.now rows.now point.at }
    requires fits { FitsChange point.plan change }
    requires there { place < point.plan.places }
    ensures { (names slots : List Variable) (assigned : ℕ → ℕ → Bool) (facts : Locks) → Shows point.entry.plan (has rows.now point.entry.at) facts
        → (i : ℕ) → i < point.entry.plan.names → bit_in result i ≡ comes_at point.entry.plan names slots assigned point.entry.low.now point.entry.at facts change (field.NewAt place) i }
{
    match change {
        Change::Bring { depth, base } => {
            let below = new(rows, point, depth, base);
            let above = new(rows, point, depth, place + 1);
            brought(depth, base, place, below, above)
        }
        Change::Make { base } => all_if(place == base),
        Change::Pop { .. }
        | Change::Get { .. }
        | Change::SetName { .. }
        | Change::SetSlot { .. }
        | Change::Dup { .. }
        | Change::Tuck { .. }
        | Change::Conv { .. }
        | Change::Use { .. }
        | Change::Lock { .. }
        | Change::Unlock { .. }
        | Change::SetState { .. }
        | Change::Dispose { .. }
        | Change::ReadState { .. }
        | Change::Call { .. } => 0,
    }
}

/// The names that come to a field.
pub(crate) fn comes(rows: &Rows, point: Point, change: Change, known: Known, its: Field) -> u64
    requires point { IsPoint point.plan point.low.now rows.now point.at }
    requires fits { FitsChange point.plan change }
    requires few { (i : ℕ) → point.plan.names ≤ i → bit_in known.with i ≡ false }
    requires there { IsField point.plan its }
    ensures { (names slots : List Variable) (assigned : ℕ → ℕ → Bool) (facts : Locks) → Shows point.entry.plan (has rows.now point.entry.at) facts
        → IsKnown point.entry.plan names slots assigned point.entry.low.now point.entry.at facts change known
        → (i : ℕ) → i < point.entry.plan.names → bit_in result i ≡ comes_at point.entry.plan names slots assigned point.entry.low.now point.entry.at facts change its i }
{
    match its {
        Field::KeptIn(slot) => kept_in_comes(rows, point, change, known, slot),
        Field::Locked => locked_comes(rows, point, change, known),
        Field::Live => live_comes(rows, point, change, known),
        Field::Apart(name) => apart_comes(change, known, name),
        Field::KeptAt(place) => kept_at_comes(rows, point, change, known, place),
        Field::NewAt(place) => new_comes(rows, point, change, place),
    }
}
