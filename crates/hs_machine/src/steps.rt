//! One operation.

ghost use Rattle.std.specs.Prelude.{◌≡◌, ◌<◌, true, slice_get};
ghost use Rattle.hs_machine.specs.Programs.{program_here};
ghost use Rattle.hs_machine.specs.Advancing.{IsShift};
ghost use Rattle.hs_machine.specs.Standing.{Steps, StepsAs};
ghost use Rattle.hs_operations.specs.Works.{works};

use crate::calls::{call, end_call};
use crate::control::{choose, jump, pick, turn, zero};
use crate::loaded::Loaded;
use crate::runner::{End, Runner};
use crate::turns::end_at;
use hs_base::Pos;
use hs_code::{Op, Placed};
use hs_operations::work;

/// Does an operation that only takes values from the stack and leaves others.
fn work_at(loaded: &Loaded, runner: &mut Runner, at: Pos, op: Op) -> Result<(), End>
    requires works { works op ≡ true }
    requires small { runner.old.next.at < 4294967296 }
    ensures steps { StepsAs (program_here loaded.now) op at runner.old runner.new result }
    ensures shifts { runner.new.machine.heap.shifts ≡ runner.old.machine.heap.shifts }
{
    match work(
        &loaded.setting,
        loaded.literals,
        &mut runner.machine,
        &mut runner.stack,
        op,
    ) {
        Ok(()) => {
            runner.next.at += 1;
            Ok(())
        }
        Err(why) => Err(end_at(at, why)),
    }
}

/// Does an operation that takes no decision.
fn act<'c>(loaded: &Loaded<'c>, runner: &mut Runner<'c, '_>, at: Pos, op: Op) -> Result<(), End>
    requires no_shift { ¬ IsShift op }
    requires small { runner.old.next.at < 4294967296 }
    ensures steps { StepsAs (program_here loaded.now) op at runner.old runner.new result }
    ensures shifts { runner.new.machine.heap.shifts ≡ runner.old.machine.heap.shifts }
{
    match op {
        Op::Jump(target) => {
            jump(runner, at, target);
            Ok(())
        }
        Op::Zero(target) => zero(runner, at, target),
        Op::Choose(goal) => choose(runner, at, goal),
        Op::Call(place) => call(loaded, runner, at, place),
        Op::Return => end_call(runner, at),
        Op::Turn => turn(runner, at),
        Op::Pick(target) => {
            pick(runner, at, target);
            Ok(())
        }
        Op::Shift(_) => unreachable!(),
        Op::Num(_)
        | Op::Nil
        | Op::Address(_)
        | Op::Get(_)
        | Op::Set(_)
        | Op::Load(_)
        | Op::Store(_)
        | Op::Drop
        | Op::Dup
        | Op::Tuck
        | Op::Conv(_)
        | Op::Unary(_)
        | Op::Binary(_, _)
        | Op::IsNil
        | Op::Compare(_)
        | Op::Difference(_)
        | Op::Offset(_)
        | Op::Step { .. }
        | Op::Routine(_)
        | Op::Mark
        | Op::Bring(_) => work_at(loaded, runner, at, op),
    }
}

/// Does the operation that is next, if it takes no decision.
pub(crate) fn step<'c>(
    loaded: &Loaded<'c>,
    runner: &mut Runner<'c, '_>,
    placed: &Placed,
) -> Result<(), End>
    requires next { slice_get runner.old.next.code.now.ops runner.old.next.at ≡ Some placed.now }
    requires no_shift { ¬ IsShift placed.now.op }
    requires small { runner.old.next.at < 4294967296 }
    ensures steps { Steps (program_here loaded.now) runner.old runner.new result }
    ensures shifts { runner.new.machine.heap.shifts ≡ runner.old.machine.heap.shifts }
{
    act(loaded, runner, placed.at, placed.op)
}
