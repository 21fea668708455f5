//! Laws of runs. Each is a function without a body, so that a caller can name it.

ghost use Rattle.std.specs.Prelude.{◌≡◌, ℕ, Bool, List, slice_get, Some};
ghost use Rattle.hs_chains.specs.Hazards.{Hazard, Kind};
ghost use Rattle.hs_chains.specs.Knowledge.{IsKnowledge, Knowledge};
ghost use Rattle.hs_code.specs.Codes.{IsCode};
ghost use Rattle.hs_code_run.specs.Codes.{CodeFunction, Point};
ghost use Rattle.hs_code_run.specs.Runs.{begun};
ghost use Rattle.hs_effects.specs.Answers.{Answers, IsExact};
ghost use Rattle.hs_facts.specs.Effects.{WholeCode};
ghost use Rattle.hs_heap.specs.declared.decision.Decision.{Decision};
ghost use Rattle.hs_meaning.specs.Classes.{classes_of};
ghost use Rattle.hs_meaning.specs.Runs.{starting};
ghost use Rattle.hs_meaning.specs.Steps.{State, went};
ghost use Rattle.hs_meaning.specs.declared.input.Input.{Input};
ghost use Rattle.hs_still.specs.Runs.{AllUsedFrom, Reaches};
ghost use Rattle.hs_tracked.specs.Misuses.{IsUsedOrHazard};
ghost use Rattle.hs_tracked.specs.Runs.{AreTrackedAt};
ghost use Rattle.hs_tree.specs.Fitting.{Fits};
ghost use Rattle.hs_true.specs.Exact.{program};

/// Wherever a run of the code of a typed program comes, with any input, schedule and choices, each pointer and each handle that the call that goes on has
/// is tracked by the analysis; and so is each that a call that waits had when it called.
pub fn values_are_tracked_in_every_run()
    ensures { (whole : WholeCode) (answers : Answers) (exact : IsExact whole answers)
        (are : IsCode whole.program whole.classes whole.functions) (known : Knowledge)
        → IsKnowledge whole known
        → Fits whole.program
        → whole.classes ≡ classes_of whole.program
        → (input : Input) (schedule : List Decision) (turns : ℕ) (choices : List Bool) (function : CodeFunction)
        → slice_get (program whole answers exact are).functions (program whole answers exact are).main ≡ Some function
        → (point next : Point) (s t : State)
        → begun (program whole answers exact are) choices function (starting (program whole answers exact are).setting input schedule turns) ≡ went point s
        → Reaches (program whole answers exact are) point s next t
        → AreTrackedAt whole answers exact are known next t }
{}

/// Wherever a run of the code of a typed program comes, the next operation tests no operand that is stale or purged, or it is a hazard: a chain of the
/// analysis brings Stale to a pointer that it uses, or Hollow to a handle.
pub fn a_misuse_is_a_hazard()
    ensures { (whole : WholeCode) (answers : Answers) (exact : IsExact whole answers)
        (are : IsCode whole.program whole.classes whole.functions) (known : Knowledge)
        → IsKnowledge whole known
        → Fits whole.program
        → whole.classes ≡ classes_of whole.program
        → (input : Input) (schedule : List Decision) (turns : ℕ) (choices : List Bool) (function : CodeFunction)
        → slice_get (program whole answers exact are).functions (program whole answers exact are).main ≡ Some function
        → (point next : Point) (s t : State)
        → begun (program whole answers exact are) choices function (starting (program whole answers exact are).setting input schedule turns) ≡ went point s
        → Reaches (program whole answers exact are) point s next t
        → IsUsedOrHazard whole answers exact are next t }
{}

/// A run of a program without hazards tests no operand that is stale or purged.
pub fn a_program_without_hazards_misuses_nothing()
    ensures { (whole : WholeCode) (answers : Answers) (exact : IsExact whole answers)
        (are : IsCode whole.program whole.classes whole.functions) (known : Knowledge)
        → IsKnowledge whole known
        → Fits whole.program
        → whole.classes ≡ classes_of whole.program
        → (input : Input) (schedule : List Decision) (turns : ℕ) (choices : List Bool) (function : CodeFunction)
        → slice_get (program whole answers exact are).functions (program whole answers exact are).main ≡ Some function
        → ((f at : ℕ) (kind : Kind) → Hazard whole f at kind → ⊥)
        → (point : Point) (s : State)
        → begun (program whole answers exact are) choices function (starting (program whole answers exact are).setting input schedule turns) ≡ went point s
        → AllUsedFrom (program whole answers exact are) point s }
{}
