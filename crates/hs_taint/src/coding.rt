//! Facts as numbers. `specs/Coding.antt` has the numbers.

ghost use Rattle.std.specs.Prelude.{◌≡◌, ◌<◌, ◌≤◌, ◌+◌, ◌*◌, ◌^◌};
ghost use Rattle.hs_taint.specs.Coding.{code_of, fact_of, later_status_of, number_of, number_of_status, rank_of, slot_of, status_of};

use hs_flow::{Fact, FactStatus, Slot};
use hs_tree::Variable;

/// How many numbers a slot of one kind may have.
const NUMBERS: u64 = 4_294_967_296;

/// How many numbers a status may have.
const STATUSES: u64 = 536_870_912;

/// The number of a fact. Facts are ordered as their numbers are.
pub(crate) fn code_of(fact: Fact) -> u64
    ensures { result ≡ code_of fact }
{
    code_of_slot(fact.slot) * STATUSES + code_of_status(fact.status)
}

/// The number of a slot, by its kind and then by its own number.
fn code_of_slot(slot: Slot) -> u64
    ensures code { result ≡ rank_of slot * 4294967296 + number_of slot }
    ensures fits { result < 6 * 2 ^ 32 }
{
    match slot {
        Slot::Nothing => 0,
        Slot::Answer => NUMBERS,
        Slot::Variable(Variable::Global(place)) => 2 * NUMBERS + u64::from(place),
        Slot::Variable(Variable::Local(place)) => 3 * NUMBERS + u64::from(place),
        Slot::Place(place) => 4 * NUMBERS + u64::from(place),
        Slot::Class(class) => 5 * NUMBERS + u64::from(class),
    }
}

/// The number of a status.
fn code_of_status(status: FactStatus) -> u64
    ensures code { result ≡ number_of_status status }
    ensures fits { result < 2 ^ 33 }
{
    match status {
        FactStatus::Stale => 0,
        FactStatus::Hollow => 1,
        FactStatus::Loose => 2,
        FactStatus::Outer => 3,
        FactStatus::Held => 4,
        FactStatus::Fresh(name) => u64::from(name) + 5,
        FactStatus::SavedPurgeable => 536_870_908,
        FactStatus::Purgeable => 536_870_909,
        FactStatus::IsHandle => 536_870_910,
        FactStatus::Reached => 536_870_911,
    }
}

/// The fact of a number.
pub(crate) fn fact_of(code: u64) -> Fact
    ensures { result ≡ fact_of code }
{
    let rest = code / STATUSES;
    Fact {
        slot: slot_of(rest / NUMBERS, (rest % NUMBERS) as u32),
        status: status_of((code % STATUSES) as u32),
    }
}

/// The slot of that kind and number.
fn slot_of(rank: u64, number: u32) -> Slot
    ensures { result ≡ slot_of rank number }
{
    if rank == 0 {
        Slot::Nothing
    } else if rank == 1 {
        Slot::Answer
    } else if rank == 2 {
        Slot::Variable(Variable::Global(number))
    } else if rank == 3 {
        Slot::Variable(Variable::Local(number))
    } else if rank == 4 {
        Slot::Place(number)
    } else {
        Slot::Class(number)
    }
}

/// The status of that number.
fn status_of(number: u32) -> FactStatus
    ensures { result ≡ status_of number }
{
    if number == 0 {
        FactStatus::Stale
    } else if number == 1 {
        FactStatus::Hollow
    } else if number == 2 {
        FactStatus::Loose
    } else if number == 3 {
        FactStatus::Outer
    } else if number == 4 {
        FactStatus::Held
    } else {
        later_status_of(number)
    }
}

/// The status of a number after those of `status_of`.
fn later_status_of(number: u32) -> FactStatus
    requires later { 5 ≤ number }
    ensures { result ≡ later_status_of number }
{
    if number < 536_870_908 {
        FactStatus::Fresh(number - 5)
    } else if number == 536_870_908 {
        FactStatus::SavedPurgeable
    } else if number == 536_870_909 {
        FactStatus::Purgeable
    } else if number == 536_870_910 {
        FactStatus::IsHandle
    } else {
        FactStatus::Reached
    }
}
