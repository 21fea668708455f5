//! Operations that direct control inside a call.

ghost use Rattle.std.specs.Prelude.{◌≡◌, ◌<◌, Ok};
ghost use Rattle.hs_code.specs.declared.op.Op.TheVariants as op;
ghost use Rattle.hs_machine.specs.Standing.{SameButTop, StepsAs, TakesNumber};
ghost use Rattle.hs_code_run.specs.Codes.{CodeProgram};

use crate::runner::{End, Runner};
use crate::switches::case_for;
use crate::turns::{end_at, take_turn};
use hs_base::Pos;
use hs_code::Goal;
use hs_meaning::Stop;
use hs_values::Halt;

/// Takes the number on top of the stack of a run.
fn take_number(runner: &mut Runner, at: Pos) -> Result<u32, End>
    ensures takes { TakesNumber at runner.old runner.new result }
    ensures rest { SameButTop runner.old runner.new }
{
    let Some(value) = runner.stack.pop() else {
        return Err(end_at(at, Halt::Stopped(Stop::BadPointer)));
    };
    match value.bits() {
        Ok(bits) => Ok(bits),
        Err(why) => Err(end_at(at, Halt::Stopped(why))),
    }
}

/// Goes on at that operation.
pub(crate) fn jump(runner: &mut Runner, at: Pos, target: u32)
    ensures steps { (program : CodeProgram) → StepsAs program (op.Jump target) at runner.old runner.new (Ok tt) }
    ensures machine { runner.new.machine ≡ runner.old.machine }
{
    runner.next.at = target as usize;
}

/// Goes on at that operation if the number on top is 0.
pub(crate) fn zero(runner: &mut Runner, at: Pos, target: u32) -> Result<(), End>
    requires small { runner.old.next.at < 4294967296 }
    ensures steps { (program : CodeProgram) → StepsAs program (op.Zero target) at runner.old runner.new result }
    ensures machine { runner.new.machine ≡ runner.old.machine }
{
    let bits = take_number(runner, at)?;
    runner.next.at = if bits == 0 {
        target as usize
    } else {
        runner.next.at + 1
    };
    Ok(())
}

/// Goes on at the case of the number on top.
pub(crate) fn choose(runner: &mut Runner, at: Pos, goal: Goal) -> Result<(), End>
    ensures steps { (program : CodeProgram) → StepsAs program (op.Choose goal) at runner.old runner.new result }
    ensures machine { runner.new.machine ≡ runner.old.machine }
{
    let bits = take_number(runner, at)?;
    runner.next.at = case_for(bits, goal, runner.next.code.cases.items()) as usize;
    Ok(())
}

/// Takes a turn.
pub(crate) fn turn(runner: &mut Runner, at: Pos) -> Result<(), End>
    requires small { runner.old.next.at < 4294967296 }
    ensures steps { (program : CodeProgram) → StepsAs program op.Turn at runner.old runner.new result }
    ensures machine { runner.new.machine ≡ runner.old.machine }
{
    take_turn(&mut runner.turns)?;
    runner.next.at += 1;
    Ok(())
}

/// Takes a choice of an order of operands: the machine goes from the left, so it goes on at the next operation.
pub(crate) fn pick(runner: &mut Runner, at: Pos, target: u32)
    requires small { runner.old.next.at < 4294967296 }
    ensures steps { (program : CodeProgram) → StepsAs program (op.Pick target) at runner.old runner.new (Ok tt) }
    ensures machine { runner.new.machine ≡ runner.old.machine }
{
    runner.next.at += 1;
}
