//! From the code of a typed program to the transcript of its run.

ghost use Rattle.std.specs.Prelude.{◌≡◌, ◌≤◌, length, IfOk, IfErr};
ghost use Rattle.hs_code.specs.Codes.{view_program};
ghost use Rattle.hs_lowering.specs.Statements.{codes_of};
ghost use Rattle.hs_machine.specs.Recording.{IsTold, size_of};
ghost use Rattle.hs_meaning.specs.Classes.{classes_of};
ghost use Rattle.hs_movers.specs.ScriptTexts.{IsPrintable};
ghost use Rattle.hs_runner.specs.Runs.{IsGivenUp, IsRunOf, RunsExactly};

use hs_code::Code;
use hs_lowering::code_of_programs_is_exact;
use hs_machine::{MachineEnd, Transcript, execute};
use hs_meaning::Input;
use hs_movers::Mover;
use std::alloc::Global;

/// Runs the code of a typed program (`lower` of `hs_lower` gives it) with that input and so many turns, on a heap that moves as the mover decides.
///
/// The transcript is that of the run of the program under the script that it shows (`IsRunOf`), and the run took exactly the decisions of that script
/// (`RunsExactly`). If the mover tells its decisions, the script is those, without the number 0.
///
/// # Errors
///
/// `Limit` of Output or of Script, whichever the run passes first, as [`execute`] answers it. `NoMemory` if memory runs out, for the machine or for the mover. The mover may have
/// been asked by then.
pub fn run_code(
    alloc: Global,
    code: &Code,
    input: &Input,
    mover: &mut Box<dyn Mover>,
    turns: u64,
) -> Result<Transcript, MachineEnd>
    requires classes { code.now.classes.items ≡ classes_of (view_program code.now.program.now) }
    requires code { code.now.functions.items ≡ codes_of (view_program code.now.program.now) }
    ensures run { IfOk result (λ its. IsRunOf (view_program code.now.program.now) input.now turns its) }
    ensures exactly { IfOk result (λ its. RunsExactly (view_program code.now.program.now) input.now turns its) }
    ensures told { IfOk result (λ its. IsTold (told mover.old) its.script.decisions) }
    ensures seed { IfOk result (λ its. its.script.seed ≡ 0) }
    ensures printable { IfOk result (λ its. IsPrintable its.script) }
    ensures few_bytes { IfOk result (λ its. length its.output ≤ 16777216) }
    ensures few_decisions { IfOk result (λ its. size_of its.script.decisions ≤ 4000000) }
    ensures same_number { number mover.new ≡ number mover.old }
    ensures gives_up { IfErr result (λ why. IsGivenUp (view_program code.now.program.now) input.now turns (told mover.old) why) }
{
    code_of_programs_is_exact(code.program);
    execute(alloc, code, input, mover, turns)
}
