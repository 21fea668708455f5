//! Calls of functions, and their ends.

ghost use Rattle.std.specs.Prelude.{◌≡◌, ◌<◌, suc, [], ◌∷◌, ◌++◌, map, reverse, OnOk};
ghost use Rattle.hs_code.specs.declared.op.Op.TheVariants as op;
ghost use Rattle.hs_code_run.specs.Codes.{CodeProgram};
ghost use Rattle.hs_code_run.specs.Steps.{below, taken};
ghost use Rattle.hs_machine.specs.Programs.{function_of, program_here};
ghost use Rattle.hs_layers.specs.Layers.{Opens};
ghost use Rattle.hs_machine.specs.Standing.{StepsAs, goes};
ghost use Rattle.hs_meaning.specs.Frames.{opened};
ghost use Rattle.hs_state.specs.Machines.{Does, machine_of};
ghost use Rattle.hs_state.specs.Settings.{setting_here};

use crate::loaded::{Callee, Loaded};
use crate::runner::{End, Next, Runner};
use crate::turns::{end_at, finishing, take_turn};
use hs_base::{NoMemory, Pos};
use hs_frames::{close, open};
use hs_layers::Layers;
use hs_meaning::Stop;
use hs_state::{Machine, Setting};
use hs_values::{Halt, Value};

/// Begins a call with the values on top of the stack as its arguments, and takes them away.
fn enter(
    setting: &Setting,
    machine: &mut Machine,
    stack: &mut Layers<Value>,
    callee: Callee,
) -> Result<(), Halt>
    ensures does { let its = function_of callee.entry in Does (opened (setting_here setting.now) its.parameters its.variables (taken its.parameters (reverse stack.old.top)) (machine_of machine.old)) (machine_of machine.new) result }
    ensures callers { OnOk result (machine.new.locals.below ≡ machine.old.locals.top ∷ machine.old.locals.below) }
    ensures shifts { machine.new.heap.shifts ≡ machine.old.heap.shifts }
    ensures top { OnOk result (reverse stack.new.top ≡ below (function_of callee.entry).parameters (reverse stack.old.top)) }
    ensures below { stack.new.below ≡ stack.old.below }
{
    let function = callee.function;
    let values = stack.items();
    let low = values.len().saturating_sub(function.parameters as usize);
    let (_, arguments) = values.split_at(low);
    let variables = function.variables.items();
    match open(setting, machine, function.parameters, variables, arguments) {
        Ok(()) => {
            stack.truncate(low);
            Ok(())
        }
        Err(why) => Err(why),
    }
}

/// Goes to the first operation of a function, on an empty stack. The call that goes on waits.
fn go_to<'c>(runner: &mut Runner<'c, '_>, callee: Callee<'c>) -> Result<(), NoMemory>
    requires small { runner.old.next.at < 4294967296 }
    ensures next { OnOk result (goes runner.new.next ≡ record { code = callee.entry.code.now; at = 0 }) }
    ensures returns { OnOk result (map goes runner.new.returns.items ≡ map goes runner.old.returns.items ++ record { code = runner.old.next.code.now; at = suc runner.old.next.at } ∷ []) }
    ensures stack { OnOk result (Opens runner.old.stack runner.new.stack) }
    ensures machine { runner.new.machine ≡ runner.old.machine }
    ensures turns { runner.new.turns ≡ runner.old.turns }
{
    let back = Next {
        code: runner.next.code,
        at: runner.next.at + 1,
    };
    runner.returns.push(back)?;
    runner.stack.open()?;
    runner.next = Next {
        code: callee.code,
        at: 0,
    };
    Ok(())
}

/// Calls the function of that number.
pub(crate) fn call<'c>(
    loaded: &Loaded<'c>,
    runner: &mut Runner<'c, '_>,
    at: Pos,
    place: u32,
) -> Result<(), End>
    requires small { runner.old.next.at < 4294967296 }
    ensures steps { StepsAs (program_here loaded.now) (op.Call place) at runner.old runner.new result }
    ensures shifts { runner.new.machine.heap.shifts ≡ runner.old.machine.heap.shifts }
{
    let Some(callee) = loaded.callee(place) else {
        return Err(end_at(at, Halt::Stopped(Stop::BadPointer)));
    };
    take_turn(&mut runner.turns)?;
    match enter(
        &loaded.setting,
        &mut runner.machine,
        &mut runner.stack,
        callee,
    ) {
        Ok(()) => match go_to(runner, callee) {
            Ok(()) => Ok(()),
            Err(_) => Err(End::NoMemory),
        },
        Err(why) => Err(end_at(at, why)),
    }
}

/// Ends the call that goes on, with the value on top as its result. The end of `main` is the end of the run.
pub(crate) fn end_call(runner: &mut Runner, at: Pos) -> Result<(), End>
    ensures steps { (program : CodeProgram) → StepsAs program op.Return at runner.old runner.new result }
    ensures shifts { runner.new.machine.heap.shifts ≡ runner.old.machine.heap.shifts }
{
    let Some(value) = runner.stack.pop() else {
        return Err(end_at(at, Halt::Stopped(Stop::BadPointer)));
    };
    close(&mut runner.machine);
    let Some(next) = runner.returns.pop() else {
        return Err(End::Over(finishing(&value, at)));
    };
    runner.stack.close();
    match runner.stack.push(value) {
        Ok(()) => {
            runner.next = next;
            Ok(())
        }
        Err(_) => Err(End::NoMemory),
    }
}
