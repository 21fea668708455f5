//! Laws of the runs of code. Each is a function without a body, so that a caller can name it.
ghost use Rattle.std.specs.Prelude.{◌≡◌, ℕ, Bool, false, List, length, slice_get, Some};
ghost use Rattle.hs_code.specs.Codes.{view_program};
ghost use Rattle.hs_code.specs.declared.function_code.Placed.{Placed};
ghost use Rattle.hs_code_run.specs.Codes.{CodeFunction, CodeProgram, Point, code_program};
ghost use Rattle.hs_code_run.specs.Depths.{AreStacked, IsDeepPoint};
ghost use Rattle.hs_code_run.specs.Laws.Epochs.{EpochsKept, is_shift_at};
ghost use Rattle.hs_code_run.specs.Runs.{Comes, starting_point};
ghost use Rattle.hs_code_run.specs.Steps.{stepped};
ghost use Rattle.hs_meaning.specs.Laws.Turns.{later};
ghost use Rattle.hs_meaning.specs.Steps.{State, went};
ghost use Rattle.hs_meaning.specs.declared.outcome.Outcome.{Outcome};
ghost use Rattle.hs_meaning.specs.declared.outcome.Outcome.TheVariants.{TurnsSpent};

use hs_code::Code;

/// A run of code is a function of its arguments: from one point and state it ends in one way.
pub fn runs_are_functions()
    ensures { (program : CodeProgram) (point : Point) (s after other : State) (outcome ended : Outcome)
        → Comes program point s outcome after → Comes program point s ended other
        → (outcome ≡ ended) × (after ≡ other) }
{}

/// A run of code that is not spent ends in the same way with more turns, and has them left.
pub fn a_run_stays_with_more_turns()
    ensures { (program : CodeProgram) (more : ℕ) (point : Point) (s after : State) (outcome : Outcome)
        → ¬ (outcome ≡ TurnsSpent)
        → Comes program point s outcome after
        → Comes program point (later more s) outcome (later more after) }
{}

/// A step that is no Shift changes no epoch: each block has the epoch that it had, and blocks may be added.
pub fn only_shifts_move()
    ensures { (program : CodeProgram) (point : Point) (s : State)
        → is_shift_at (slice_get point.frame.code.ops point.frame.at) ≡ false
        → EpochsKept s (stepped program point s) }
{}

/// Steps keep the depth, in a program whose operations have their operands: a run begins at an operation that is reached with nothing on the
/// stack, and after a step each call is at an operation that is reached with as many values as are on its stack. The operation that is next
/// notes that number.
pub fn steps_keep_the_depth()
    ensures begins { (program : CodeProgram) (function : CodeFunction) (choices : List Bool)
        → slice_get program.functions program.main ≡ Some function
        → IsDeepPoint program (starting_point function choices) }
    ensures keeps { (program : CodeProgram) (point next : Point) (s t : State)
        → AreStacked program
        → IsDeepPoint program point
        → stepped program point s ≡ went next t
        → IsDeepPoint program next }
    ensures notes { (program : CodeProgram) (point : Point) (its : Placed)
        → AreStacked program
        → IsDeepPoint program point
        → slice_get point.frame.code.ops point.frame.at ≡ Some its
        → length point.frame.stack ≡ its.places }
{}

/// The code of a program, as its type keeps it, has its operands. So in its runs the steps keep the depth.
pub fn code_has_its_operands(code: &Code)
    ensures { ∥ AreStacked (code_program (view_program code.now.program.now) code.now.functions.items) ∥₁ }
{}
