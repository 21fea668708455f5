//! Laws of calls. Each is a function without a body, so that a caller can name it.

ghost use Rattle.std.specs.Prelude.{◌≡◌, ℕ, List, Option, Some};
ghost use Rattle.hs_command.specs.Runs.{ShowsRun};
ghost use Rattle.hs_heap.specs.declared.decision.Decision.{Decision};
ghost use Rattle.hs_meaning.specs.declared.input.Input.{Input};
ghost use Rattle.hs_report.specs.declared.run_report.Ran.{Ran};
ghost use Rattle.hs_tree.specs.Trees.{TypedProgram};

/// What two calls of [`crate::run`] show of one program, with one input, so many turns and the same names of files.
///
/// If the mover tells its decisions, also after a script was loaded into it, both show the same text: output, outcome and script. And if the mover of the
/// second call tells the decisions that the first one showed, both show the same text, also if nothing is known of the first mover.
pub fn told_runs_print_the_same()
    ensures once { (program : TypedProgram) (input : Input) (turns : ℕ) (names : List (List ℕ)) (told : List Decision) (ran other : Ran)
        → ShowsRun program input turns (Some told) names ran
        → ShowsRun program input turns (Some told) names other
        → ran ≡ other }
    ensures again { (program : TypedProgram) (input : Input) (turns : ℕ) (names : List (List ℕ)) (told : Option (List Decision)) (ran other : Ran)
        → (shows : ShowsRun program input turns told names ran)
        → ShowsRun program input turns (Some shows.its.script.decisions) names other
        → ran ≡ other }
{}
