//! The run of a program's code.

ghost use Rattle.std.specs.Prelude.{◌≡◌, ◌≤◌, [], ◌∷◌, length, IfOk, IfErr, OnOk};
ghost use Rattle.hs_code.specs.Codes.{view_program};
ghost use Rattle.hs_code_run.specs.Codes.{code_program};
ghost use Rattle.hs_machine.specs.Programs.{function_of, program_here};
ghost use Rattle.hs_machine.specs.Recording.{IsTold, size_of};
ghost use Rattle.hs_machine.specs.Transcripts.{GivesUp, HasRun};
ghost use Rattle.hs_meaning.specs.Classes.{classes_of};
ghost use Rattle.hs_meaning.specs.Frames.{opened};
ghost use Rattle.hs_meaning.specs.Statements.{opening_of};
ghost use Rattle.hs_movers.specs.ScriptTexts.{IsPrintable};
ghost use Rattle.hs_state.specs.Machines.{Does, machine_of};
ghost use Rattle.hs_state.specs.Settings.{setting_here};
ghost use Rattle.hs_tree.specs.Views.{view_function};

use crate::loaded::{Callee, Loaded};
use crate::recorder::Recorder;
use crate::runner::{Next, Runner};
use crate::running::run;
use crate::transcript::{MachineEnd, Transcript};
use hs_base::{Bytes, NoMemory, Pos};
use hs_code::Code;
use hs_frames::open;
use hs_layers::Layers;
use hs_meaning::{Input, Outcome};
use hs_movers::{Decisions, Mover, Script};
use hs_start::{first_literal, start};
use hs_state::{Machine, Setting};
use hs_tree::Function;
use hs_values::Halt;
use std::alloc::Global;

/// What of the code does not change while it runs.
fn load<'c>(code: &'c Code<'_>) -> Result<Loaded<'c>, NoMemory>
    requires classes { code.now.classes.items ≡ classes_of (view_program code.now.program.now) }
    ensures { IfOk result (λ its. program_here its ≡ code_program (view_program code.now.program.now) code.now.functions.items) }
{
    let setting = Setting::of(code.program, &code.classes)?;
    let literals = first_literal(&setting)?;
    Ok(Loaded {
        setting,
        literals,
        program: code.program,
        codes: &code.functions,
    })
}

/// The place of the `{` of a function's body.
fn opening(function: &Function) -> Pos
    ensures { result ≡ opening_of (view_function function.now).body }
{
    function.body.opening.pos
}

/// Begins the call of `main`.
fn open_main(setting: &Setting, machine: &mut Machine, main: Callee) -> Result<(), Halt>
    ensures does { let its = function_of main.entry in Does (opened (setting_here setting.now) its.parameters its.variables [] (machine_of machine.old)) (machine_of machine.new) result }
    ensures callers { OnOk result (machine.new.locals.below ≡ machine.old.locals.top ∷ machine.old.locals.below) }
    ensures shifts { machine.new.heap.shifts ≡ machine.old.heap.shifts }
{
    let function = main.function;
    open(
        setting,
        machine,
        function.parameters,
        function.variables.items(),
        &[],
    )
}

/// What the machine shows at the end of a run.
fn shown(machine: Machine, recorder: Recorder, outcome: Outcome) -> Transcript
    ensures output { result.output ≡ machine.entry.output.items }
    ensures outcome { result.outcome ≡ outcome }
    ensures script { result.script.decisions ≡ recorder.decisions.items }
    ensures seed { result.script.seed ≡ 0 }
    ensures heap { result.heap.blocks ≡ machine.entry.heap.blocks }
{
    Transcript {
        output: Bytes::from_vec(machine.output),
        outcome,
        script: Script {
            seed: 0,
            decisions: Decisions::from_vec(recorder.decisions),
        },
        heap: machine.heap,
    }
}

/// Runs the code of a program with that input and so many turns on a heap that moves as the mover decides at each call of a routine that moves
/// or purges (X3.159-1989 3.1.2.4 and 3.6; the machine is own).
///
/// The transcript is that of the run of the code under the decisions that are recorded. If the mover tells its decisions, they are those, without
/// the number 0. A decision moves and purges no block but those that permit it, whatever the mover answers.
///
/// # Errors
///
/// `Limit` of `Output` if the run puts out more than 16777216 bytes, and of `Script` if it asks for more than 4000000 decisions, the block numbers
/// in them included. `NoMemory` if memory runs out, for the machine or for the mover. The mover may have been asked by then.
pub fn execute(
    alloc: Global,
    code: &Code,
    input: &Input,
    mover: &mut Box<dyn Mover>,
    turns: u64,
) -> Result<Transcript, MachineEnd>
    requires classes { code.now.classes.items ≡ classes_of (view_program code.now.program.now) }
    ensures run { IfOk result (λ its. HasRun (code_program (view_program code.now.program.now) code.now.functions.items) input.now turns its) }
    ensures told { IfOk result (λ its. IsTold (told mover.old) its.script.decisions) }
    ensures seed { IfOk result (λ its. its.script.seed ≡ 0) }
    ensures printable { IfOk result (λ its. IsPrintable its.script) }
    ensures few_bytes { IfOk result (λ its. length its.output ≤ 16777216) }
    ensures few_decisions { IfOk result (λ its. size_of its.script.decisions ≤ 4000000) }
    ensures same_number { number mover.new ≡ number mover.old }
    ensures gives_up { IfErr result (λ why. GivesUp (code_program (view_program code.now.program.now) code.now.functions.items) input.now turns (told mover.old) why) }
{
    let loaded = load(code)?;
    let mut machine = start(alloc, &loaded.setting, input)?;
    let mut recorder = Recorder::new(alloc);
    let Some(main) = loaded.callee(code.program.main) else {
        return Err(MachineEnd::NoMemory);
    };
    match open_main(&loaded.setting, &mut machine, main) {
        Ok(()) => (),
        Err(Halt::Stopped(why)) => {
            let outcome = Outcome::Stopped(why, opening(main.function));
            return Ok(shown(machine, recorder, outcome));
        }
        Err(Halt::NoMemory) => return Err(MachineEnd::NoMemory),
    }
    let mut runner = Runner {
        machine,
        stack: Layers::new(alloc),
        next: Next {
            code: main.code,
            at: 0,
        },
        returns: Vec::new(alloc),
        turns,
    };
    match run(&loaded, &mut runner, &mut recorder, mover) {
        Ok(outcome) => Ok(shown(runner.machine, recorder, outcome)),
        Err(why) => Err(why),
    }
}
