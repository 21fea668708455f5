//! Decisions for routines that may move or purge.

ghost use Rattle.std.specs.Prelude.{◌≡◌, ◌++◌, slice_get};
ghost use Rattle.hs_code.specs.declared.op.Op.TheVariants as op;
ghost use Rattle.hs_effects.specs.Calling.{whole_of};
ghost use Rattle.hs_flow.specs.Buffers.{HasRoom};
ghost use Rattle.hs_flow.specs.Next.{purges_in, shifted};
ghost use Rattle.hs_flow.specs.Programs.{next_in};

use crate::naming::is_name_locked;
use crate::putting::{put_if, stay};
use crate::{Around, Fact, FactStatus, Facts};
use hs_code::Code;
use hs_tree::BoundRoutine;

/// Whether the routine of that number may purge, if it is there.
fn purges(routines: &[BoundRoutine], number: u32) -> bool
    ensures { result ≡ purges_in (slice_get routines.now number) }
{
    match routines.get(number as usize) {
        Some(it) => it.routine.purges,
        None => false,
    }
}

/// What becomes of a block that moves or is purged.
fn put_shifted<A: Around>(
    into: &mut Facts,
    around: &A,
    routines: &[BoundRoutine],
    number: u32,
    fact: Fact,
)
    requires room { HasRoom 1 into.old }
    ensures facts { into.new.facts
        ≡ into.old.facts
        ++ shifted
        (purges_in (slice_get routines.now number)) (A.given around.now) fact.status fact.slot }
    ensures room { into.new.room ≡ into.old.room }
{
    match fact.status {
        FactStatus::Fresh(h) => { put_if(into, !around.locked(h), FactStatus::Stale, fact.slot) }
        FactStatus::Outer | FactStatus::Loose => into.put(FactStatus::Stale, fact.slot),
        FactStatus::Purgeable => {
            let purged = purges(routines, number) && !is_name_locked(around, fact.slot);
            put_if(into, purged, FactStatus::Hollow, fact.slot)
        }
        FactStatus::Reached
        | FactStatus::IsHandle
        | FactStatus::Hollow
        | FactStatus::SavedPurgeable
        | FactStatus::Held
        | FactStatus::Stale => {}
    }
}

/// A decision is taken for the routine of that number: the fact stays, and blocks may move or be purged.
pub(crate) fn shift<A: Around>(
    into: &mut Facts,
    around: &A,
    code: &Code,
    f: u32,
    number: u32,
    fact: Fact,
)
    requires room { HasRoom 2 into.old }
    ensures facts { into.new.facts ≡ into.old.facts
        ++ next_in (whole_of code.now) f (A.given around.now) (op.Shift number) fact }
    ensures room { into.new.room ≡ into.old.room }
{
    stay(into, around.places(), fact);
    put_shifted(into, around, code.program.routines.items(), number, fact);
}
