//! A run, operation by operation.

ghost use Rattle.std.specs.Prelude.{◌≡◌, ◌<◌, ◌≤◌, nat_lt, [], length, slice_get, option_copied, IfOk, IsSome, OnOk};
ghost use Rattle.hs_machine.specs.Advancing.{Advances, Operates};
ghost use Rattle.hs_machine.specs.Programs.{program_here};
ghost use Rattle.hs_machine.specs.Recording.{IsTold, NamesBlocks};
ghost use Rattle.hs_machine.specs.Running.{Runs};
ghost use Rattle.hs_machine.specs.Standing.{Waits};

use crate::hurry::hurry;
use crate::loaded::Loaded;
use crate::recorder::Recorder;
use crate::runner::{End, Next, Runner};
use crate::shifts::shift;
use crate::steps::step;
use crate::transcript::MachineEnd;
use hs_base::{LimitKind, Pos};
use hs_code::{Op, Placed};
use hs_meaning::{Outcome, Stop};
use hs_movers::Mover;

/// The operation at which a call goes on, if it is there.
pub(crate) fn operation<'c>(next: Next<'c>) -> Option<&'c Placed>
    ensures there { option_copied result ≡ slice_get next.entry.code.now.ops next.entry.at }
    ensures small { IsSome result → next.entry.at < 4294967296 }
{
    next.code.ops.items().get(next.at)
}

/// Does one operation. What it answers if the run has ended is how.
fn operate<'c>(
    loaded: &Loaded<'c>,
    runner: &mut Runner<'c, '_>,
    recorder: &mut Recorder,
    mover: &mut Box<dyn Mover>,
) -> Result<Option<Outcome>, MachineEnd>
    requires counted { runner.old.machine.heap.shifts ≡ length recorder.old.decisions.items }
    ensures same_number { number mover.new ≡ number mover.old }
    ensures counted { OnOk result (runner.new.machine.heap.shifts ≡ length recorder.new.decisions.items) }
    ensures advances { Operates (program_here loaded.now) runner.old runner.new recorder.old.decisions.items recorder.new.decisions.items (told mover.old) (told mover.new) result }
{
    let Some(placed) = operation(runner.next) else {
        let nowhere = Pos {
            file: 0,
            line: 0,
            col: 0,
        };
        return Ok(Some(Outcome::Stopped(Stop::BadPointer, nowhere)));
    };
    if let Op::Shift(place) = placed.op {
        return match shift(loaded, runner, recorder, mover, place) {
            Ok(()) => Ok(None),
            Err(why) => Err(why),
        };
    }
    match step(loaded, runner, placed) {
        Ok(()) => Ok(None),
        Err(End::Over(outcome)) => Ok(Some(outcome)),
        Err(End::NoMemory) => Err(MachineEnd::NoMemory),
    }
}

/// Tests whether there is more output than a run may have.
#[inline(always)]
fn is_flooded(output: &[u8]) -> bool
    ensures { result ≡ nat_lt 16777216 (length output.now) }
{
    output.len() as u64 > LimitKind::Output.number()
}

/// Does one operation. Before it, and if it ends the run, the limit of output is tested.
fn advance<'c>(
    loaded: &Loaded<'c>,
    runner: &mut Runner<'c, '_>,
    recorder: &mut Recorder,
    mover: &mut Box<dyn Mover>,
) -> Result<Option<Outcome>, MachineEnd>
    requires counted { runner.old.machine.heap.shifts ≡ length recorder.old.decisions.items }
    ensures same_number { number mover.new ≡ number mover.old }
    ensures counted { OnOk result (runner.new.machine.heap.shifts ≡ length recorder.new.decisions.items) }
    ensures few_bytes { IfOk result (λ came. IsSome came → length runner.new.machine.output.items ≤ 16777216) }
    ensures advances { Advances (program_here loaded.now) runner.old runner.new recorder.old.decisions.items recorder.new.decisions.items (told mover.old) (told mover.new) result }
{
    if is_flooded(runner.machine.output.as_slice()) {
        return Err(MachineEnd::Limit(LimitKind::Output.passed()));
    }
    let came = match operate(loaded, runner, recorder, mover) {
        Ok(came) => came,
        Err(why) => return Err(why),
    };
    if came.is_some() && is_flooded(runner.machine.output.as_slice()) {
        return Err(MachineEnd::Limit(LimitKind::Output.passed()));
    }
    Ok(came)
}

/// Runs to the end. What it answers is how the run ended.
pub(crate) fn run<'c>(
    loaded: &Loaded<'c>,
    runner: &mut Runner<'c, '_>,
    recorder: &mut Recorder,
    mover: &mut Box<dyn Mover>,
) -> Result<Outcome, MachineEnd>
    requires unshifted { runner.old.machine.heap.shifts ≡ 0 }
    requires unrecorded { recorder.old.decisions.items ≡ [] }
    requires begins { Waits [] runner.old }
    ensures same_number { number mover.new ≡ number mover.old }
    ensures few_bytes { OnOk result (length runner.new.machine.output.items ≤ 16777216) }
    ensures told { OnOk result (IsTold (told mover.old) recorder.new.decisions.items) }
    ensures names_blocks { OnOk result (NamesBlocks recorder.new.decisions.items) }
    ensures runs { Runs (program_here loaded.now) runner.old runner.new recorder.new.decisions.items (told mover.old) result }
{
    // Code need not end. No machine comes to the last turn of this loop.
    'operations: for _ in 0..u64::MAX {
        match hurry(runner) {
            Ok(()) => (),
            Err(_) => return Err(MachineEnd::NoMemory),
        }
        let came = match advance(loaded, runner, recorder, mover) {
            Ok(came) => came,
            Err(why) => return Err(why),
        };
        if let Some(outcome) = came {
            return Ok(outcome);
        }
    }
    Err(MachineEnd::NoMemory)
}
