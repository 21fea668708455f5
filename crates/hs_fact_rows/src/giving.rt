//! Changes of a row of facts.

ghost use Rattle.std.specs.Prelude.{◌≡◌, ◌<◌, ◌≤◌, ℕ, ◌+◌, ◌*◌, ◌^◌, true, false, IsTrue, IsFalse};
ghost use Rattle.hs_fact_rows.specs.Cells.{with_field, saved_field, total, saved_in};
ghost use Rattle.hs_fact_rows.specs.Given.{IsFit, Turns, Makes, facts_in, popped, placed, named, slotted, without, one_name, with_of, saved_of};
ghost use Rattle.hs_rows.specs.Sets.{bit_in};

use crate::Plan;
use crate::fields::{clear, field, write};
use hs_rows::Rows;

/// How many numbers the facts of a row have.
pub(crate) fn total(plan: Plan) -> usize
    requires fields_fit { with_field plan plan.places < 2 ^ 64 }
    requires numbers_fit { total plan < 2 ^ 64 }
    ensures { result ≡ total plan }
{
    (1 + plan.slots + 2 * plan.places) * plan.names
}

/// The first number of the names of a place.
#[tactic(auto, using(crate::proofs::Turning::with_first_in))]
fn with_first(plan: Plan, place: usize) -> usize
    requires there { place ≤ plan.places }
    requires fields_fit { with_field plan plan.places < 2 ^ 64 }
    requires numbers_fit { total plan < 2 ^ 64 }
    ensures is { result ≡ with_field plan place * plan.names }
    ensures within { result ≤ total plan }
    ensures inside { place < plan.places → result + plan.names ≤ total plan }
{
    (1 + plan.slots + 2 * place) * plan.names
}

/// The first number of the names of the byte of a place.
#[tactic(auto, using(crate::proofs::Turning::saved_first_in))]
fn saved_first(plan: Plan, place: usize) -> usize
    requires there { place < plan.places }
    requires fields_fit { with_field plan plan.places < 2 ^ 64 }
    requires numbers_fit { total plan < 2 ^ 64 }
    ensures is { result ≡ saved_field plan place * plan.names }
    ensures inside { result + plan.names ≤ total plan }
{
    (2 + plan.slots + 2 * place) * plan.names
}

/// The first number of the names of the byte of a slot.
#[tactic(auto, using(crate::proofs::Turning::slot_first_in))]
fn slot_first(plan: Plan, slot: usize) -> usize
    requires there { slot ≤ plan.slots }
    requires fields_fit { with_field plan plan.places < 2 ^ 64 }
    requires numbers_fit { total plan < 2 ^ 64 }
    ensures is { result ≡ slot * plan.names }
    ensures inside { result + plan.names ≤ total plan }
{
    slot * plan.names
}

/// Makes a row of what another one has below a place.
pub(crate) fn start(rows: &mut Rows, plan: Plan, row: usize, from: usize, base: usize)
    requires fit { IsFit plan rows.old row }
    requires from_in_range { from < rows.old.count }
    ensures { Makes plan row from (λ facts cell. popped base cell (facts cell)) rows.old rows.new }
{
    rows.copy_row(row, from);
    if base < plan.places {
        let first = with_first(plan, base);
        clear(rows, row, first, total(plan) - first);
    }
}

/// Says of a place which names it has, and of which its byte was read.
pub(crate) fn put_place(rows: &mut Rows, plan: Plan, row: usize, place: usize, words: (u64, u64))
    requires fit { IsFit plan rows.old row }
    ensures { Turns plan row (placed place (bit_in words.0) (bit_in words.1)) rows.old rows.new }
{
    if place < plan.places {
        let (with, saved) = words;
        write(rows, row, with_first(plan, place), plan.names, with);
        write(rows, row, saved_first(plan, place), plan.names, saved);
    }
}

/// Says of a slot of which names its byte was read.
pub(crate) fn put_slot(rows: &mut Rows, plan: Plan, row: usize, slot: usize, saved: u64)
    requires fit { IsFit plan rows.old row }
    requires there { slot ≤ plan.slots }
    ensures { Turns plan row (slotted (one_name slot) (bit_in saved)) rows.old rows.new }
{
    write(rows, row, slot_first(plan, slot), plan.names, saved);
}

/// Says that a place has a name too.
pub(crate) fn add_name(rows: &mut Rows, plan: Plan, row: usize, place: usize, name: usize)
    requires fit { IsFit plan rows.old row }
    requires there { name < plan.names }
    ensures { Turns plan row (named place name) rows.old rows.new }
{
    if place < plan.places {
        let _new = rows.put(row, with_first(plan, place) + name);
    }
}

/// Ends all facts about a name.
pub(crate) fn end_name(rows: &mut Rows, plan: Plan, row: usize, name: usize)
    requires fit { IsFit plan rows.old row }
    requires there { name < plan.names }
    ensures { Turns plan row (without (one_name name)) rows.old rows.new }
{
    'fields: for k in 0..1 + plan.slots + 2 * plan.places {
        rows.drop_bit(row, k * plan.names + name);
    }
}

/// Returns the names of a place, if there are so many values.
///
/// Example: 0 for a place that is not below the depth.
#[tactic(auto, using(crate::proofs::Turning::less_is, crate::proofs::Turning::least_is, crate::proofs::Writing::none_read))]
pub fn with_at(rows: &Rows, plan: Plan, row: usize, depth: usize, place: usize) -> u64
    requires fit { IsFit plan rows.now row }
    requires depth_in_range { depth ≤ plan.places }
    ensures names { (i : ℕ) → i < plan.names → bit_in result i ≡ with_of (facts_in plan rows.now row) depth place i }
    ensures few { (i : ℕ) → plan.names ≤ i → bit_in result i ≡ false }
{
    if place < depth {
        field(rows, row, with_first(plan, place), plan.names)
    } else {
        0
    }
}

/// Returns the names of the byte of a place, if there are so many values.
///
/// Example: 0 for a place that is not below the depth.
#[tactic(auto, using(crate::proofs::Turning::less_is, crate::proofs::Turning::least_is, crate::proofs::Writing::none_read))]
pub fn saved_at(rows: &Rows, plan: Plan, row: usize, depth: usize, place: usize) -> u64
    requires fit { IsFit plan rows.now row }
    requires depth_in_range { depth ≤ plan.places }
    ensures names { (i : ℕ) → i < plan.names → bit_in result i ≡ saved_of (facts_in plan rows.now row) depth place i }
    ensures few { (i : ℕ) → plan.names ≤ i → bit_in result i ≡ false }
{
    if place < depth {
        field(rows, row, saved_first(plan, place), plan.names)
    } else {
        0
    }
}

/// Returns the names of the byte of a slot.
///
/// Example: 1 if the byte was read from the handle in the name 0 alone.
pub fn saved_in(rows: &Rows, plan: Plan, row: usize, slot: usize) -> u64
    requires fit { IsFit plan rows.now row }
    requires there { slot ≤ plan.slots }
    ensures names { (i : ℕ) → i < plan.names → bit_in result i ≡ facts_in plan rows.now row (saved_in slot i) }
    ensures few { (i : ℕ) → plan.names ≤ i → bit_in result i ≡ false }
{
    field(rows, row, slot_first(plan, slot), plan.names)
}

/// Whether the word has a bit.
#[tactic(auto, using(crate::proofs::Writing::some_bit, crate::proofs::Writing::none_read))]
fn is_some(word: u64) -> bool
    ensures some { IsTrue result → (i : ℕ) × (bit_in word i ≡ true) }
    ensures none { IsFalse result → (i : ℕ) → bit_in word i ≡ false }
{
    word != 0
}

/// Whether a place has a name from whose handle the byte of another place was read, before an operation with so many values on the stack. So a
/// `set_state` is tested for a restore.
///
/// Example: true for the places 0 and 1 if the row has With of place 0 and Saved of place 1, both of the name 2.
pub fn shares(rows: &Rows, plan: Plan, at: usize, depth: usize, places: (usize, usize)) -> bool
    requires fit { IsFit plan rows.now at }
    requires depth_in_range { depth ≤ plan.places }
    ensures some { IsTrue result →
        (i : ℕ) × (i < plan.names) × (with_of (facts_in plan rows.now at) depth places.0 i ≡ true) × (saved_of (facts_in plan rows.now at) depth places.1 i ≡ true) }
    ensures none { IsFalse result → (i : ℕ) → i < plan.names → with_of (facts_in plan rows.now at) depth places.0 i ≡ true
        → saved_of (facts_in plan rows.now at) depth places.1 i ≡ true → ⊥ }
{
    let with = with_at(rows, plan, at, depth, places.0);
    let saved = saved_at(rows, plan, at, depth, places.1);
    is_some(with & saved)
}
