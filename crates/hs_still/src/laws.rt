//! Laws of the still machine. Each is a function without a body, so that a caller can name it.
ghost use Rattle.hs_code_run.specs.Codes.{CodeProgram, Point};
ghost use Rattle.hs_code_run.specs.Runs.{CodeRun};
ghost use Rattle.hs_code_run.specs.Steps.{stepped};
ghost use Rattle.hs_heap.specs.Shift.{Powers};
ghost use Rattle.hs_heap.specs.declared.decision.Decision.{Decision};
ghost use Rattle.hs_meaning.specs.Machine.{Machine};
ghost use Rattle.hs_meaning.specs.Operations.{Operation, operate};
ghost use Rattle.hs_meaning.specs.Runs.{Ending, IsMisuse};
ghost use Rattle.hs_meaning.specs.Settings.{Setting};
ghost use Rattle.hs_meaning.specs.Steps.{State, after_decision};
ghost use Rattle.hs_meaning.specs.Values.{Value};
ghost use Rattle.hs_meaning.specs.declared.input.Input.{Input};
ghost use Rattle.hs_still.specs.Machines.{still_value, still_machine, still_state, still_point, still_done, still_ran};
ghost use Rattle.hs_still.specs.Runs.{RunUses};
ghost use Rattle.hs_still.specs.Steps.{StepUses, tests_at};
ghost use Rattle.hs_still.specs.Tests.{tests};
ghost use Rattle.std.specs.Prelude.{◌≡◌, ℕ, Bool, false, List, [], map, slice_get};

/// A decision of the schedule changes nothing of the still state.
pub fn no_decision_changes_the_still_state()
    ensures { (powers : Powers) (s : State) → still_state (after_decision powers s) ≡ still_state s }
{}

/// An operation that is not listed as one that tests its operands does the same on the still machine, whatever they are.
pub fn an_operation_that_tests_nothing_asks_nothing()
    ensures { (setting : Setting) (its : Operation) (values : List Value) (machine : Machine)
        → tests setting its ≡ false
        → operate setting its (map still_value values) (still_machine machine)
        ≡ still_done still_value (operate setting its values machine) }
{}

/// The same of a step of code: calls, returns, jumps, turns and decisions test no operand.
pub fn a_step_that_tests_nothing_asks_nothing()
    ensures { (program : CodeProgram) (point : Point) (s : State)
        → tests_at program (slice_get point.frame.code.ops point.frame.at) ≡ false
        → stepped program (still_point point) (still_state s) ≡ still_ran still_point (stepped program point s) }
{}

/// If no operand that a step tests is stale or purged, then the step from the still point and state comes to the still image of what the step comes to.
pub fn a_step_does_the_same_on_the_still_machine()
    ensures { (program : CodeProgram) (point : Point) (s : State)
        → StepUses program point s
        → stepped program (still_point point) (still_state s) ≡ still_ran still_point (stepped program point s) }
{}

/// If no step of a run tests an operand that is stale or purged, then the run without a schedule ends as it does, with the same output.
pub fn a_run_is_the_run_without_a_schedule()
    ensures { (program : CodeProgram) (input : Input) (schedule : List Decision) (choices : List Bool)
        (turns : ℕ) (ending : Ending)
        → RunUses program input schedule choices turns
        → CodeRun program input schedule choices turns ending
        → CodeRun program input [] choices turns ending }
{}

/// Nor does such a run end in a misuse: it does not stop because something is stale or purged.
pub fn such_a_run_ends_in_no_misuse()
    ensures { (program : CodeProgram) (input : Input) (schedule : List Decision) (choices : List Bool)
        (turns : ℕ) (ending : Ending)
        → RunUses program input schedule choices turns
        → CodeRun program input schedule choices turns ending
        → ¬ (IsMisuse ending.outcome) }
{}
