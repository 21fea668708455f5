//! Laws of the definitions, each a function without a body, so that a caller can name it.

ghost use Rattle.std.specs.Prelude.{◌≡◌, ℕ, Bool, true, List};
ghost use Rattle.hs_base.specs.declared.pos.Pos.{Pos};
ghost use Rattle.hs_code.specs.declared.function_code.FunctionCode.{FunctionCode};
ghost use Rattle.hs_code.specs.declared.op.Op.{Op};
ghost use Rattle.hs_code_run.specs.Codes.{CodeProgram, Waiting};
ghost use Rattle.hs_meaning.specs.Steps.{State};
ghost use Rattle.hs_meaning.specs.Values.{Value};
ghost use Rattle.hs_operations.specs.Works.{IsStep, works};

/// The step of a run that an operation is which only takes values and leaves others: the stack and the machine after it are those of `worked`,
/// and control goes on at the next operation.
pub fn operations_are_steps()
    ensures { (program : CodeProgram) (at : Pos) (code : FunctionCode) (place : ℕ) (waiting : List Waiting) (choices : List Bool) (s : State) (its : Op) (stack : List Value)
        → works its ≡ true → IsStep program at code place waiting choices s its stack }
{}
