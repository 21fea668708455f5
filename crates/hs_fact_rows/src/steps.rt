//! What each step gives: a row that is made from the row before the operation.

ghost use Rattle.std.specs.Prelude.{◌≡◌, ◌≢◌, ◌<◌, ◌≤◌, ℕ, ◌-◌, ◌==◌, ◌&&◌, length};
ghost use Rattle.hs_fact_rows.specs.Cells.{saved_in};
ghost use Rattle.hs_fact_rows.specs.Given.{IsFit, FitsStep, Turns, Makes, Names, given, given_by, slotted, without, named, no_name, one_name, facts_in, with_of, saved_of};
ghost use Rattle.hs_fact_rows.specs.declared.step.Step.TheVariants as step;
ghost use Rattle.hs_rows.specs.Sets.{bit_in};

use crate::callees::{Callees, is_gone};
use crate::giving::{add_name, end_name, put_place, put_slot, saved_at, saved_in, start, with_at};
use crate::{Plan, Step};
use hs_rows::Rows;
use hs_tree::Variable;

/// From which row which one is made.
#[derive(Clone, Copy)]
pub(crate) struct Way {
    pub plan: Plan,
    pub from: usize,
    pub to: usize,
}

/// The variables that are numbered, by their places in the lists.
#[derive(Clone, Copy)]
pub struct Lists<'a> {
    /// Handle names of the function: those whose facts are found.
    pub names: &'a [Variable],
    /// The slots that the function sets, and those that the functions assign which it calls.
    pub slots: &'a [Variable],
}

/// Returns the word with that bit alone, if it has one.
///
/// Example: 4 for the bit 2, and 0 for the bit 64.
#[tactic(auto, using(crate::proofs::Writing::one_bit))]
pub fn one(bit: usize) -> u64
    ensures { (i : ℕ) → i < 64 → bit_in result i ≡ (i == bit) }
{
    if bit < 64 { 1 << bit } else { 0 }
}

fn give_get(rows: &mut Rows, way: Way, to: usize, slot: usize, name: usize)
    requires fit { IsFit way.plan rows.old way.to }
    requires from { IsFit way.plan rows.old way.from }
    requires there { slot ≤ way.plan.slots }
    ensures { (names slots : ℕ → Names) → Makes way.plan way.to way.from (given names slots (step.Get to slot name)) rows.old rows.new }
{
    let saved = saved_in(rows, way.plan, way.from, slot);
    start(rows, way.plan, way.to, way.from, to);
    put_place(rows, way.plan, way.to, to, (one(name), saved));
}

fn give_set_name(rows: &mut Rows, way: Way, depth: usize, name: usize, slot: usize)
    requires fit { IsFit way.plan rows.old way.to }
    requires from { IsFit way.plan rows.old way.from }
    requires there { slot ≤ way.plan.slots }
    ensures { (names slots : ℕ → Names) → Makes way.plan way.to way.from (given names slots (step.SetName depth name slot)) rows.old rows.new }
{
    start(rows, way.plan, way.to, way.from, depth);
    end_known(rows, way, name);
    put_slot(rows, way.plan, way.to, slot, 0);
    add_known(rows, way, depth.saturating_sub(1), name);
}

/// Ends all facts about a name, if it is one of the plan.
fn end_known(rows: &mut Rows, way: Way, name: usize)
    requires fit { IsFit way.plan rows.old way.to }
    ensures { Turns way.plan way.to (without (one_name name)) rows.old rows.new }
{
    if name < way.plan.names {
        end_name(rows, way.plan, way.to, name);
    }
}

/// Says that a place has a name too, if it is one of the plan.
fn add_known(rows: &mut Rows, way: Way, place: usize, name: usize)
    requires fit { IsFit way.plan rows.old way.to }
    ensures { Turns way.plan way.to (named place name) rows.old rows.new }
{
    if name < way.plan.names {
        add_name(rows, way.plan, way.to, place, name);
    }
}

fn give_set_slot(rows: &mut Rows, way: Way, depth: usize, slot: usize)
    requires fit { IsFit way.plan rows.old way.to }
    requires from { IsFit way.plan rows.old way.from }
    requires depth_in_range { depth ≤ way.plan.places }
    requires there { slot ≤ way.plan.slots }
    ensures { (names slots : ℕ → Names) → Makes way.plan way.to way.from (given names slots (step.SetSlot depth slot)) rows.old rows.new }
{
    let saved = saved_at(rows, way.plan, way.from, depth, depth.saturating_sub(1));
    start(rows, way.plan, way.to, way.from, depth);
    put_slot(rows, way.plan, way.to, slot, saved);
}

/// The names of a place, and those of its byte.
fn both_at(rows: &Rows, way: Way, depth: usize, place: usize) -> (u64, u64)
    requires from { IsFit way.plan rows.now way.from }
    requires depth_in_range { depth ≤ way.plan.places }
    ensures with { (i : ℕ) → i < way.plan.names → bit_in result.0 i ≡ with_of (facts_in way.plan rows.now way.from) depth place i }
    ensures saved { (i : ℕ) → i < way.plan.names → bit_in result.1 i ≡ saved_of (facts_in way.plan rows.now way.from) depth place i }
{
    (
        with_at(rows, way.plan, way.from, depth, place),
        saved_at(rows, way.plan, way.from, depth, place),
    )
}

fn give_dup(rows: &mut Rows, way: Way, depth: usize)
    requires fit { IsFit way.plan rows.old way.to }
    requires from { IsFit way.plan rows.old way.from }
    requires depth_in_range { depth ≤ way.plan.places }
    ensures { (names slots : ℕ → Names) → Makes way.plan way.to way.from (given names slots (step.Dup depth)) rows.old rows.new }
{
    let top = both_at(rows, way, depth, depth.saturating_sub(1));
    start(rows, way.plan, way.to, way.from, depth);
    put_place(rows, way.plan, way.to, depth, top);
}

fn give_tuck(rows: &mut Rows, way: Way, depth: usize)
    requires fit { IsFit way.plan rows.old way.to }
    requires from { IsFit way.plan rows.old way.from }
    requires depth_in_range { depth ≤ way.plan.places }
    ensures { (names slots : ℕ → Names) → Makes way.plan way.to way.from (given names slots (step.Tuck depth)) rows.old rows.new }
{
    let top = depth.saturating_sub(1);
    let low = depth.saturating_sub(2);
    let upper = both_at(rows, way, depth, top);
    let lower = both_at(rows, way, depth, low);
    start(rows, way.plan, way.to, way.from, low);
    put_place(rows, way.plan, way.to, low, upper);
    put_place(rows, way.plan, way.to, top, lower);
    put_place(rows, way.plan, way.to, depth, upper);
}

fn give_conv(rows: &mut Rows, way: Way, depth: usize)
    requires fit { IsFit way.plan rows.old way.to }
    requires from { IsFit way.plan rows.old way.from }
    requires depth_in_range { depth ≤ way.plan.places }
    ensures { (names slots : ℕ → Names) → Makes way.plan way.to way.from (given names slots (step.Conv depth)) rows.old rows.new }
{
    let top = depth.saturating_sub(1);
    let saved = saved_at(rows, way.plan, way.from, depth, top);
    start(rows, way.plan, way.to, way.from, top);
    put_place(rows, way.plan, way.to, top, (0, saved));
}

fn give_read(rows: &mut Rows, way: Way, depth: usize, base: usize)
    requires fit { IsFit way.plan rows.old way.to }
    requires from { IsFit way.plan rows.old way.from }
    requires depth_in_range { depth ≤ way.plan.places }
    ensures { (names slots : ℕ → Names) → Makes way.plan way.to way.from (given names slots (step.ReadState depth base)) rows.old rows.new }
{
    let with = with_at(rows, way.plan, way.from, depth, base);
    start(rows, way.plan, way.to, way.from, base);
    put_place(rows, way.plan, way.to, base, (0, with));
}

fn give_bring(rows: &mut Rows, way: Way, depth: usize, base: usize)
    requires fit { IsFit way.plan rows.old way.to }
    requires from { IsFit way.plan rows.old way.from }
    requires apart { way.from ≢ way.to }
    requires depth_in_range { depth ≤ way.plan.places }
    ensures { (names slots : ℕ → Names) → Makes way.plan way.to way.from (given names slots (step.Bring depth base)) rows.old rows.new }
{
    start(rows, way.plan, way.to, way.from, base);
    let last = depth.saturating_sub(1);
    'places: for at in base..last {
        let above = both_at(rows, way, depth, at + 1);
        put_place(rows, way.plan, way.to, at, above);
    }
    let moved = both_at(rows, way, depth, base);
    put_place(rows, way.plan, way.to, last, moved);
}

/// Ends all facts about a name, if it is so.
fn end_if(rows: &mut Rows, way: Way, name: usize, is: bool)
    requires fit { IsFit way.plan rows.old way.to }
    requires there { name < way.plan.names }
    ensures { Turns way.plan way.to (without (λ j. is && (j == name))) rows.old rows.new }
{
    if is {
        end_name(rows, way.plan, way.to, name);
    }
}

/// Says that nothing is known of the byte of a slot, if it is so.
fn clear_if(rows: &mut Rows, way: Way, slot: usize, is: bool)
    requires fit { IsFit way.plan rows.old way.to }
    requires there { slot ≤ way.plan.slots }
    ensures { Turns way.plan way.to (slotted (λ j. is && (j == slot)) no_name) rows.old rows.new }
{
    if is {
        put_slot(rows, way.plan, way.to, slot, 0);
    }
}

fn give_call<C: Callees>(
    rows: &mut Rows,
    way: Way,
    lists: Lists,
    callees: &C,
    base: usize,
    function: u32,
)
    requires fit { IsFit way.plan rows.old way.to }
    requires from_in_range { way.from < rows.old.count }
    requires names { length lists.names.now ≡ way.plan.names }
    requires slots { length lists.slots.now ≡ way.plan.slots }
    ensures { Makes way.plan way.to way.from (given_by (C.assigned callees.now) lists.entry.names.now lists.entry.slots.now (step.Call base function)) rows.old rows.new }
{
    start(rows, way.plan, way.to, way.from, base);
    'names: for name in 0..lists.names.len() {
        let is = is_gone(callees, function, lists.names, name);
        end_if(rows, way, name, is);
    }
    'slots: for slot in 0..lists.slots.len() {
        let is = is_gone(callees, function, lists.slots, slot);
        clear_if(rows, way, slot, is);
    }
}

/// Makes the row after a step from the row before it.
pub(crate) fn give<C: Callees>(rows: &mut Rows, way: Way, lists: Lists, callees: &C, step: Step)
    requires fit { IsFit way.plan rows.old way.to }
    requires from { IsFit way.plan rows.old way.from }
    requires apart { way.from ≢ way.to }
    requires names { length lists.names.now ≡ way.plan.names }
    requires slots { length lists.slots.now ≡ way.plan.slots }
    requires step { FitsStep way.plan step }
    ensures { Makes way.plan way.to way.from (given_by (C.assigned callees.now) lists.entry.names.now lists.entry.slots.now step) rows.old rows.new }
{
    match step {
        Step::Pop { base } => start(rows, way.plan, way.to, way.from, base),
        Step::Get { to, slot, name } => give_get(rows, way, to, slot, name),
        Step::SetName { depth, name, slot } => give_set_name(rows, way, depth, name, slot),
        Step::SetSlot { depth, slot } => give_set_slot(rows, way, depth, slot),
        Step::Dup { depth } => give_dup(rows, way, depth),
        Step::Tuck { depth } => give_tuck(rows, way, depth),
        Step::Conv { depth } => give_conv(rows, way, depth),
        Step::Bring { depth, base } => give_bring(rows, way, depth, base),
        Step::ReadState { depth, base } => give_read(rows, way, depth, base),
        Step::Call { base, function } => give_call(rows, way, lists, callees, base, function),
    }
}
