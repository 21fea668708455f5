//! Laws of runs on the machine. Each is a function without a body, so that a caller can name it.

ghost use Rattle.std.specs.Prelude.{ℕ, List, Some};
ghost use Rattle.hs_code_run.specs.Codes.{CodeProgram};
ghost use Rattle.hs_heap.specs.declared.decision.Decision.{Decision};
ghost use Rattle.hs_machine.specs.Laws.Scripts.{AreOne};
ghost use Rattle.hs_machine.specs.Recording.{IsTold};
ghost use Rattle.hs_machine.specs.Transcripts.{EndsWithin, HasRun, PassesOutput, PassesScript, comes_under, reaches_under};
ghost use Rattle.hs_machine.specs.declared.transcript.Transcript.{Transcript};
ghost use Rattle.hs_meaning.specs.declared.input.Input.{Input};
ghost use Rattle.hs_movers.specs.ScriptTexts.{IsPrintable};

/// If a mover tells its decisions, all runs of one program with one input and so many turns are one: they have the same script, the same output and the
/// same end. And a mover that tells the decisions that were recorded gives the same run, also if nothing is known of the mover that decided.
pub fn told_runs_are_one()
    ensures one { (program : CodeProgram) (input : Input) (turns : ℕ) (told : List Decision) (its other : Transcript)
        → HasRun program input turns its → HasRun program input turns other
        → IsTold (Some told) its.script.decisions → IsTold (Some told) other.script.decisions
        → AreOne program input turns its other }
    ensures again { (program : CodeProgram) (input : Input) (turns : ℕ) (its other : Transcript)
        → HasRun program input turns its → IsPrintable its.script
        → HasRun program input turns other → IsTold (Some its.script.decisions) other.script.decisions
        → AreOne program input turns its other }
{}

/// If a mover tells its decisions, a run ends within its limits, or it passes the limit of output first, or that of its script. No two of these are so.
/// As [`crate::execute`] answers one of them, or that memory ran out, each answer is given exactly if it is so.
pub fn limits_exclude_each_other()
    ensures within_or_output { (program : CodeProgram) (input : Input) (turns : ℕ) (told : List Decision)
        → EndsWithin program (reaches_under program input turns) (comes_under program input turns) (Some told)
        → ¬ (PassesOutput program (reaches_under program input turns) (comes_under program input turns) (Some told)) }
    ensures within_or_script { (program : CodeProgram) (input : Input) (turns : ℕ) (told : List Decision)
        → EndsWithin program (reaches_under program input turns) (comes_under program input turns) (Some told)
        → ¬ (PassesScript program (reaches_under program input turns) (comes_under program input turns) (Some told)) }
    ensures output_or_script { (program : CodeProgram) (input : Input) (turns : ℕ) (told : List Decision)
        → PassesOutput program (reaches_under program input turns) (comes_under program input turns) (Some told)
        → ¬ (PassesScript program (reaches_under program input turns) (comes_under program input turns) (Some told)) }
{}
