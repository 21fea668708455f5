//! Laws of runs. Each is a function without a body, so that a caller can name it.

ghost use Rattle.std.specs.Prelude.{◌≡◌, ℕ, Bool, List, slice_get, Some};
ghost use Rattle.hs_code.specs.Codes.{IsCode};
ghost use Rattle.hs_code_run.specs.Codes.{CodeFunction, Point};
ghost use Rattle.hs_code_run.specs.Runs.{begun};
ghost use Rattle.hs_effects.specs.Answers.{Answers, IsExact};
ghost use Rattle.hs_facts.specs.Effects.{WholeCode};
ghost use Rattle.hs_heap.specs.declared.decision.Decision.{Decision};
ghost use Rattle.hs_meaning.specs.Runs.{starting};
ghost use Rattle.hs_meaning.specs.Steps.{State, went};
ghost use Rattle.hs_meaning.specs.declared.input.Input.{Input};
ghost use Rattle.hs_still.specs.Runs.{Reaches};
ghost use Rattle.hs_tree.specs.Fitting.{Fits};
ghost use Rattle.hs_true.specs.Exact.{program};
ghost use Rattle.hs_true.specs.Runs.{AreTrue, DidNoMoreAt};

/// Wherever a run of the code of a typed program comes, with any input, schedule and choices, each must fact that holds before the next operation is true
/// of the call that goes on; and each that held before the call of a function is true of the call that waits, as of then.
pub fn must_facts_are_true_of_every_run()
    ensures { (whole : WholeCode) (answers : Answers) (exact : IsExact whole answers)
        (are : IsCode whole.program whole.classes whole.functions)
        → Fits whole.program
        → (input : Input) (schedule : List Decision) (turns : ℕ) (choices : List Bool) (function : CodeFunction)
        → slice_get (program whole answers exact are).functions (program whole answers exact are).main ≡ Some function
        → (point next : Point) (s t : State)
        → begun (program whole answers exact are) choices function (starting (program whole answers exact are).setting input schedule turns) ≡ went point s
        → Reaches (program whole answers exact are) point s next t
        → AreTrue whole answers exact are next t }
{}

/// What an exact table of effects denies does not happen: since each call of a run began, the blocks are as the effects of its function say, and a global
/// that the function does not assign has the binding that it had.
pub fn effects_are_true_of_every_run()
    ensures { (whole : WholeCode) (answers : Answers) (exact : IsExact whole answers)
        (are : IsCode whole.program whole.classes whole.functions)
        → Fits whole.program
        → (input : Input) (schedule : List Decision) (turns : ℕ) (choices : List Bool) (function : CodeFunction)
        → slice_get (program whole answers exact are).functions (program whole answers exact are).main ≡ Some function
        → (point next : Point) (s t : State)
        → begun (program whole answers exact are) choices function (starting (program whole answers exact are).setting input schedule turns) ≡ went point s
        → Reaches (program whole answers exact are) point s next t
        → DidNoMoreAt whole answers exact are next t }
{}
