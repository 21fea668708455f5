//! What stays of a field.

ghost use Rattle.std.specs.Prelude.{◌≡◌, ◌<◌, ◌≤◌, ℕ, ◌&&◌, Bool, List};
ghost use Rattle.hs_fact_rows.specs.declared.plan.Plan.{Plan};
ghost use Rattle.hs_lock_rows.specs.Given.{Locks, stay_by};
ghost use Rattle.hs_lock_rows.specs.Knowing.{IsKnown, stay_at};
ghost use Rattle.hs_lock_rows.specs.Layout.{IsField};
ghost use Rattle.hs_rows.specs.Sets.{Sets, bit_in};
ghost use Rattle.hs_tree.specs.declared.head.Variable.{Variable};

use crate::knowing::Known;
use crate::words::{all_if, both, has_bit, if_so};
use crate::{Change, Field};
use hs_fact_rows::{Callees, is_gone};
use hs_tree::Variable;

/// The place from which on all ends at a change.
fn base_of(change: Change) -> usize
    ensures { (plan : Plan) (names slots : List Variable) (assigned : ℕ → ℕ → Bool) (low : Sets) (at : ℕ) (facts : Locks)
        → result ≡ (stay_at plan names slots assigned low at facts change).base }
{
    match change {
        Change::Pop { base }
        | Change::Bring { base, .. }
        | Change::Use { base, .. }
        | Change::Lock { base, .. }
        | Change::Unlock { base, .. }
        | Change::SetState { base, .. }
        | Change::Dispose { base, .. }
        | Change::ReadState { base, .. }
        | Change::Make { base }
        | Change::Call { base, .. } => base,
        Change::Get { to, .. } => to,
        Change::SetName { depth, .. } | Change::SetSlot { depth, .. } | Change::Dup { depth } => {
            depth
        }
        Change::Tuck { depth } => depth.saturating_sub(2),
        Change::Conv { depth } => depth.saturating_sub(1),
    }
}

/// Whether what is about the byte of a slot stays at a change.
fn slot_stays<C: Callees>(change: Change, callees: &C, slots: &[Variable], slot: usize) -> bool
    ensures { (plan : Plan) (names : List Variable) (low : Sets) (at : ℕ) (facts : Locks)
        → result ≡ (stay_at plan names slots.now (C.assigned callees.now) low at facts change).slots slot }
{
    match change {
        Change::SetName { slot: other, .. } | Change::SetSlot { slot: other, .. } => slot != other,
        Change::Call { function, .. } => !is_gone(callees, function, slots, slot),
        Change::Pop { .. }
        | Change::Get { .. }
        | Change::Dup { .. }
        | Change::Tuck { .. }
        | Change::Conv { .. }
        | Change::Bring { .. }
        | Change::Use { .. }
        | Change::Lock { .. }
        | Change::Unlock { .. }
        | Change::SetState { .. }
        | Change::Dispose { .. }
        | Change::ReadState { .. }
        | Change::Make { .. } => true,
    }
}

/// Whether the value of a place stays new at a change.
fn stays_new(change: Change, place: usize) -> bool
    ensures { (plan : Plan) (names slots : List Variable) (assigned : ℕ → ℕ → Bool) (low : Sets) (at : ℕ) (facts : Locks)
        → result ≡ (stay_at plan names slots assigned low at facts change).news place }
{
    match change {
        Change::SetName { depth, .. } | Change::SetSlot { depth, .. } | Change::Dup { depth } => {
            place != depth.saturating_sub(1)
        }
        Change::Pop { .. }
        | Change::Get { .. }
        | Change::Tuck { .. }
        | Change::Conv { .. }
        | Change::Bring { .. }
        | Change::Use { .. }
        | Change::Lock { .. }
        | Change::Unlock { .. }
        | Change::SetState { .. }
        | Change::Dispose { .. }
        | Change::ReadState { .. }
        | Change::Make { .. }
        | Change::Call { .. } => true,
    }
}

/// The names that stay in a field at a change.
pub(crate) fn stay<C: Callees>(
    change: Change,
    known: Known,
    callees: &C,
    slots: &[Variable],
    its: Field,
) -> u64
    ensures { (plan : Plan) (names : List Variable) (low : Sets) (at : ℕ) (facts : Locks) → plan.names ≤ 64 → IsField plan its
        → IsKnown plan names slots.now (C.assigned callees.now) low at facts change known
        → (i : ℕ) → i < plan.names → bit_in result i ≡ stay_by (stay_at plan names slots.now (C.assigned callees.now) low at facts change) its i }
{
    let locks = both(known.names, known.locks);
    match its {
        Field::KeptIn(slot) => if_so(slot_stays(change, callees, slots, slot), locks),
        Field::Locked => locks,
        Field::Live => both(known.names, known.lives),
        Field::Apart(name) => apart_stays(known.names, name),
        Field::KeptAt(place) => if_so(place < base_of(change), locks),
        Field::NewAt(place) => all_if(place < base_of(change) && stays_new(change, place)),
    }
}

/// The names that stay apart from one, if facts about these names stay.
fn apart_stays(names: u64, name: usize) -> u64
    ensures { name < 64 → (i : ℕ) → bit_in result i ≡ (bit_in names name && bit_in names i) }
{
    if_so(name < 64 && has_bit(names, name), names)
}
