//! The operation that takes a decision.

ghost use Rattle.std.specs.Prelude.{◌≡◌, ◌<◌, ◌||◌, true, IfSome, length, slice_get, option_copied, OnOk};
ghost use Rattle.hs_base.specs.declared.pos.Pos.{Pos as Meant};
ghost use Rattle.hs_machine.specs.Advancing.{IsDeciding, Shifts, Takes};
ghost use Rattle.hs_machine.specs.Programs.{program_here};

use crate::loaded::Loaded;
use crate::recorder::{Recorder, decided};
use crate::runner::Runner;
use crate::transcript::MachineEnd;
use hs_base::Pos;
use hs_movers::{Mover, MoverCall};
use hs_table::Routine;

/// Takes the next decision of the mover for a routine that moves or purges, and records it.
fn take(
    runner: &mut Runner,
    recorder: &mut Recorder,
    mover: &mut Box<dyn Mover>,
    routine: &Routine,
) -> Result<(), MachineEnd>
    requires counted { runner.old.machine.heap.shifts ≡ length recorder.old.decisions.items }
    requires permitted { (routine.now.moves || routine.now.purges) ≡ true }
    ensures same_number { number mover.new ≡ number mover.old }
    ensures takes { Takes (record { moves = routine.now.moves; purges = routine.now.purges }) runner.old runner.new recorder.old.decisions.items recorder.new.decisions.items (told mover.old) (told mover.new) result }
{
    let alloc = runner.machine.alloc;
    let call = MoverCall {
        number: recorder.decisions.len() as u64 + 1,
        moves: routine.moves,
        purges: routine.purges,
        blocks: runner.machine.blocks,
    };
    let decision = decided(alloc, mover, recorder, &runner.machine, routine, &call)?;
    let size = recorder.size_with(&decision)?;
    let machine = &mut runner.machine;
    machine.heap.shift(routine.moves, routine.purges, &decision);
    recorder.record(decision, size)?;
    Ok(())
}

/// The routine of that number, if it moves or purges.
fn deciding<'c>(loaded: &Loaded<'c>, place: u32) -> Option<&'c Routine>
    ensures deciding { IsDeciding (slice_get (program_here loaded.now).setting.routines place) (option_copied result) }
    ensures permitted { IfSome result (λ its. (its.now.moves || its.now.purges) ≡ true) }
{
    let Some(it) = loaded.setting.routines.items().get(place as usize) else {
        return None;
    };
    if it.routine.moves || it.routine.purges {
        Some(&it.routine)
    } else {
        None
    }
}

/// Moves and purges as the mover decides, if the routine of that number moves or purges, and goes on.
pub(crate) fn shift(
    loaded: &Loaded,
    runner: &mut Runner,
    recorder: &mut Recorder,
    mover: &mut Box<dyn Mover>,
    place: u32,
) -> Result<(), MachineEnd>
    requires counted { runner.old.machine.heap.shifts ≡ length recorder.old.decisions.items }
    requires small { runner.old.next.at < 4294967296 }
    ensures same_number { number mover.new ≡ number mover.old }
    ensures counted { OnOk result (runner.new.machine.heap.shifts ≡ length recorder.new.decisions.items) }
    ensures shifts { (at : Meant) → Shifts (program_here loaded.now) at place runner.old runner.new recorder.old.decisions.items recorder.new.decisions.items (told mover.old) (told mover.new) result }
{
    let Some(routine) = deciding(loaded, place) else {
        runner.next.at += 1;
        return Ok(());
    };
    match take(runner, recorder, mover, routine) {
        Ok(()) => {
            runner.next.at += 1;
            Ok(())
        }
        Err(why) => Err(why),
    }
}
