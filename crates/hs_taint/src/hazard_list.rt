//! The hazards of a program. `specs/Hazarding.antt` says which they are.

ghost use Rattle.std.specs.Bool.{Decides};
ghost use Rattle.std.specs.Prelude.{◌≡◌, ◌++◌, ◌+◌, ℕ, true, false, IfOk, Some, slice_get};
ghost use Rattle.hs_chains.specs.Hazards as chains;
ghost use Rattle.hs_effects.specs.Calling.{whole_of};
ghost use Rattle.hs_facts.specs.Effects.{placed_in};
ghost use Rattle.hs_flow.specs.Programs.{scope_at};
ghost use Rattle.hs_taint.specs.Hazarding.{AreHazards, HasLong, HasShort, IsLeastBad, IsLong, IsShort, is_bad, is_bad_status, is_used_slot, uses};
ghost use Rattle.hs_taint.specs.Listing.{AreHazardsTo, AreShortTo, is_past, lesser, listed_if};
ghost use Rattle.hs_taint.specs.Reaching.{IsInRange, IsSolved, pairs_in};
ghost use Rattle.hs_taint.specs.Using.{kind_of};

use crate::hazard::{Hazard, HazardKind};
use crate::reached::Reached;
use crate::uses::is_used;
use hs_base::NoMemory;
use hs_code::{Code, FunctionCode, Op, Placed};
use hs_flow::{Fact, FactStatus, Slot};
use std::alloc::Global;

/// Whether the operation may use a value for something.
fn uses(op: Op) -> bool
    ensures { result ≡ uses op }
{
    matches!(
        op,
        Op::Load(_) | Op::Store(_) | Op::Compare(_) | Op::Difference(_) | Op::Routine(_)
    )
}

/// Whether the status is the bad one of the kind.
fn is_bad_status(status: FactStatus, kind: HazardKind) -> bool
    ensures { result ≡ is_bad_status status (kind_of kind) }
{
    match kind {
        HazardKind::Moved => matches!(status, FactStatus::Stale),
        HazardKind::Purged => matches!(status, FactStatus::Hollow),
    }
}

/// Whether the slot is a place that the operation uses.
fn is_used_slot(code: &Code, its: Placed, kind: HazardKind, slot: Slot) -> bool
    ensures { (f : ℕ) → result ≡ is_used_slot (scope_at (whole_of code.now) f) its (kind_of kind) slot }
{
    match slot {
        Slot::Place(place) => is_used(code, its.op, its.places, kind, place),
        _ => false,
    }
}

/// Whether the fact makes the operation a hazard.
fn is_bad(code: &Code, its: Placed, kind: HazardKind, fact: Fact) -> bool
    ensures { (f : ℕ) → result ≡ is_bad (scope_at (whole_of code.now) f) its (kind_of kind) fact }
{
    is_bad_status(fact.status, kind) && is_used_slot(code, its, kind, fact.slot)
}

/// The lesser of a length and one that may be there.
fn lesser(length: u32, least: Option<u32>) -> u32
    ensures { result ≡ lesser length least }
{
    match least {
        Some(least) => length.min(least),
        None => length,
    }
}

/// The least length of the pairs that make the operation a hazard.
fn least_bad(
    code: &Code,
    reached: &Reached,
    function: u32,
    at: u32,
    its: Placed,
    kind: HazardKind,
) -> Option<u32>
    requires range { IsInRange reached.now function at }
    ensures { (f : ℕ) → IsLeastBad (scope_at (whole_of code.now) f) its (kind_of kind) (pairs_in reached.now function at) result }
{
    if !uses(its.op) {
        return None;
    }
    let mut least = None;
    'pairs: for place in 0..reached.count(function, at) {
        let pair = reached.pair(function, at, place);
        if is_bad(code, its, kind, pair.fact) {
            least = Some(lesser(pair.length, least));
        }
    }
    least
}

/// Whether the operation uses a value that is bad in that way.
fn is_hazard(
    code: &Code,
    reached: &Reached,
    function: u32,
    at: u32,
    its: Placed,
    kind: HazardKind,
) -> bool
    requires solved { IsSolved (whole_of code.now) reached.now }
    requires placed { placed_in (whole_of code.now) function at ≡ Some its }
    ensures { Decides result (chains.Hazard (whole_of code.now) function at (kind_of kind)) }
{
    least_bad(code, reached, function, at, its, kind).is_some()
}

/// The same list with a hazard at its end, if it is one.
fn with_if(mut all: Vec<Hazard>, is: bool, hazard: Hazard) -> Result<Vec<Hazard>, NoMemory>
    ensures { IfOk result (λ now. now.items ≡ all.items ++ listed_if is hazard) }
{
    if is {
        all.push(hazard)?;
    }
    Ok(all)
}

/// The same list with the hazards of an operation at its end.
fn with_operation(
    all: Vec<Hazard>,
    code: &Code,
    reached: &Reached,
    function: u32,
    at: u32,
    its: Placed,
) -> Result<Vec<Hazard>, NoMemory>
    requires solved { IsSolved (whole_of code.now) reached.now }
    requires placed { placed_in (whole_of code.now) function at ≡ Some its }
    requires so_far { AreHazardsTo (whole_of code.now) function at all.items }
    ensures { IfOk result (λ now. AreHazardsTo (whole_of code.now) function (at + 1) now.items) }
{
    let moved = is_hazard(code, reached, function, at, its, HazardKind::Moved);
    let purged = is_hazard(code, reached, function, at, its, HazardKind::Purged);
    let all = with_if(all, moved, hazard(function, at, its, HazardKind::Moved))?;
    with_if(all, purged, hazard(function, at, its, HazardKind::Purged))
}

/// A hazard of an operation.
fn hazard(function: u32, at: u32, its: Placed, kind: HazardKind) -> Hazard
    ensures { result ≡ record { function = function; at = at; kind = kind; pos = its.at } }
{
    Hazard {
        function,
        at,
        kind,
        pos: its.at,
    }
}

/// The same list with the hazards of a function at its end.
fn with_function(
    all: Vec<Hazard>,
    code: &Code,
    reached: &Reached,
    function: u32,
    own: &FunctionCode,
) -> Result<Vec<Hazard>, NoMemory>
    requires solved { IsSolved (whole_of code.now) reached.now }
    requires of_code { slice_get code.now.functions.items function ≡ Some own.now }
    requires so_far { AreHazardsTo (whole_of code.now) function 0 all.items }
    ensures { IfOk result (λ now. AreHazardsTo (whole_of code.now) (function + 1) 0 now.items) }
{
    let mut now = all;
    'ops: for (at, its) in own.ops.items().iter().enumerate() {
        now = with_operation(now, code, reached, function, at as u32, *its)?;
    }
    Ok(now)
}

/// Finds the hazards of a program, in the order of functions, operations and kinds, from the facts that chains reach in it.
///
/// Example: none, where every pointer is read anew after a call that may move memory.
///
/// # Errors
///
/// `NoMemory` if memory runs out.
pub fn hazards(alloc: Global, code: &Code, reached: &Reached) -> Result<Vec<Hazard>, NoMemory>
    requires solved { IsSolved (whole_of code.now) reached.now }
    ensures { IfOk result (λ its. AreHazards (whole_of code.now) its.items) }
{
    let mut all = Vec::new(alloc);
    'functions: for (number, own) in code.functions.iter().enumerate() {
        let number = u32::try_from(number).or(Err(NoMemory))?;
        all = with_function(all, code, reached, number, own)?;
    }
    Ok(all)
}

/// Whether each chain to what the operation uses is longer than 1000000 steps, if a chain leads to it.
fn is_past(least: Option<u32>) -> bool
    ensures { result ≡ is_past least }
{
    match least {
        Some(least) => least > 1_000_000,
        None => false,
    }
}

/// Whether the operation uses a value that is bad in that way, and each chain to it is too long.
fn is_long(
    code: &Code,
    reached: &Reached,
    function: u32,
    at: u32,
    its: Placed,
    kind: HazardKind,
) -> bool
    requires solved { IsSolved (whole_of code.now) reached.now }
    requires placed { placed_in (whole_of code.now) function at ≡ Some its }
    ensures long { result ≡ true → IsLong (whole_of code.now) function at (kind_of kind) }
    ensures short { result ≡ false → chains.Hazard (whole_of code.now) function at (kind_of kind)
        → IsShort (whole_of code.now) function at (kind_of kind) }
{
    is_past(least_bad(code, reached, function, at, its, kind))
}

/// Whether an operation of a function is a hazard to which each chain is too long.
fn has_long_in(code: &Code, reached: &Reached, function: u32, own: &FunctionCode) -> bool
    requires solved { IsSolved (whole_of code.now) reached.now }
    requires of_code { slice_get code.now.functions.items function ≡ Some own.now }
    requires so_far { AreShortTo (whole_of code.now) function 0 }
    ensures long { result ≡ true → HasLong (whole_of code.now) }
    ensures short { result ≡ false → AreShortTo (whole_of code.now) (function + 1) 0 }
{
    'ops: for (at, its) in own.ops.items().iter().enumerate() {
        let at = at as u32;
        if is_long(code, reached, function, at, *its, HazardKind::Moved)
            || is_long(code, reached, function, at, *its, HazardKind::Purged)
        {
            return true;
        }
    }
    false
}

/// Whether a program has a hazard to which each chain is too long.
pub(crate) fn has_long(code: &Code, reached: &Reached) -> Result<bool, NoMemory>
    requires solved { IsSolved (whole_of code.now) reached.now }
    ensures long { IfOk result (λ is. is ≡ true → HasLong (whole_of code.now)) }
    ensures short { IfOk result (λ is. is ≡ false → HasShort (whole_of code.now)) }
{
    'functions: for (number, own) in code.functions.iter().enumerate() {
        let number = u32::try_from(number).or(Err(NoMemory))?;
        if has_long_in(code, reached, number, own) {
            return Ok(true);
        }
    }
    Ok(false)
}
