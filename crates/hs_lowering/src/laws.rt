//! Laws of the code of expressions. Each is a function without a body, so that a caller can name it.

ghost use Rattle.std.specs.List.{AllByRecursion};
ghost use Rattle.std.specs.Prelude.{◌≡◌, ◌<◌, ℕ, Bool, List, ◌∷◌, length, true, None};
ghost use Rattle.hs_base.specs.declared.pos.Pos.{Pos};
ghost use Rattle.hs_code.specs.Codes.{IsCode, IsInRange, scope_of, view_program};
ghost use Rattle.hs_code.specs.Stacks.{Kind, pointer};
ghost use Rattle.hs_code.specs.declared.function_code.FunctionCode.{FunctionCode};
ghost use Rattle.hs_code_run.specs.Codes.{CodeProgram, Waiting};
ghost use Rattle.hs_lowering.specs.Exact.{IsExact};
ghost use Rattle.hs_lowering.specs.Laws.Calls.{Calls};
ghost use Rattle.hs_lowering.specs.Laws.Expressions.{FitsCall};
ghost use Rattle.hs_lowering.specs.Laws.Functions.{FunctionNames};
ghost use Rattle.hs_lowering.specs.Laws.InRange.{IsRanged};
ghost use Rattle.hs_lowering.specs.Laws.Jumps.{AllWithin};
ghost use Rattle.hs_lowering.specs.Laws.Kinds.{IsOf};
ghost use Rattle.hs_lowering.specs.Laws.Positions.{IsPlaced, position_of};
ghost use Rattle.hs_lowering.specs.Laws.Ranges.{NamesFit};
ghost use Rattle.hs_lowering.specs.Laws.Stacks.{KindsFit};
ghost use Rattle.hs_lowering.specs.Lowering.{after, slot_of, right_code, address_code};
ghost use Rattle.hs_lowering.specs.Performing.{Any, Holds, Performs, at_point};
ghost use Rattle.hs_lowering.specs.Stacked.{Stacked};
ghost use Rattle.hs_lowering.specs.Statements.{codes_of};
ghost use Rattle.hs_meaning.specs.Classes.{classes_of};
ghost use Rattle.hs_meaning.specs.Evaluation.{Flow, Job, value_of, addressed};
ghost use Rattle.hs_meaning.specs.Settings.{Setting, setting_of};
ghost use Rattle.hs_meaning.specs.Steps.{Step};
ghost use Rattle.hs_meaning.specs.Values.{Value};
ghost use Rattle.hs_tree.specs.Fitting.{EachNode};
ghost use Rattle.hs_tree.specs.Inside.{EachRight, EachLeft};
ghost use Rattle.hs_tree.specs.Trees.{RightValue, LeftValue, TypedFunction, TypedProgram, type_of};
ghost use Rattle.hs_tree.specs.declared.class.Class.{Class};
ghost use Rattle.hs_tree.specs.declared.head.VariableDecl.{VariableDecl};
ghost use Rattle.hs_types.specs.TypeTables.{IsRight};

use hs_tree::Program;

/// The code of an expression evaluates it: a run that comes to its first operation ends as the evaluation ends, in the
/// same state and with the same stop at the same place, or goes on after the code with the value on top of the stack.
/// The same holds of the address of an object.
///
/// The clauses require that the code performs calls of functions (`Calls`), and that each call has as many arguments as
/// there are parameters.
pub fn code_of_expressions_is_exact()
    ensures value { (program : CodeProgram) (variables : List VariableDecl) (bound : ℕ) (code : FunctionCode) (waiting : List Waiting)
        (choices : List Bool) (piece : ℕ) (again : Job → Step Flow) (e : RightValue) (start depth : ℕ) (stack : List Value)
        → Calls program variables bound code waiting choices again
        → EachRight (FitsCall program) e
        → Holds code start (right_code program.setting variables piece e start depth)
        → Performs program variables bound code waiting choices Any (value_of program.setting again e)
        (at_point program variables bound code waiting choices start stack)
        (λ value. at_point program variables bound code waiting choices
        (after start (right_code program.setting variables piece e start depth)) (value ∷ stack)) }
    ensures address { (program : CodeProgram) (variables : List VariableDecl) (bound : ℕ) (code : FunctionCode) (waiting : List Waiting)
        (choices : List Bool) (piece : ℕ) (again : Job → Step Flow) (e : LeftValue) (start depth : ℕ) (stack : List Value)
        → Calls program variables bound code waiting choices again
        → EachLeft (FitsCall program) e
        → Holds code start (address_code program.setting variables piece e start depth)
        → Performs program variables bound code waiting choices Any (addressed program.setting again e)
        (at_point program variables bound code waiting choices start stack)
        (λ value. at_point program variables bound code waiting choices
        (after start (address_code program.setting variables piece e start depth)) (value ∷ stack)) }
{}

/// The code of an expression jumps only to its own operations and to the one right after them, wherever it is. So does
/// the code of the address of an object.
pub fn expressions_jump_inside()
    ensures value { (setting : Setting) (variables : List VariableDecl) (piece : ℕ) (e : RightValue) (start depth : ℕ)
        → AllWithin start (after start (right_code setting variables piece e start depth)) (right_code setting variables piece e start depth) }
    ensures address { (setting : Setting) (variables : List VariableDecl) (piece : ℕ) (e : LeftValue) (start depth : ℕ)
        → AllWithin start (after start (address_code setting variables piece e start depth)) (address_code setting variables piece e start depth) }
{}

/// The operations of an expression have its position, those of its operands theirs, and all of them its piece: what holds of the position of each
/// expression inside, holds of that of each operation.
pub fn expressions_keep_their_positions()
    ensures value { (setting : Setting) (variables : List VariableDecl) (piece : ℕ) (test : Pos → Bool) (e : RightValue) (start depth : ℕ)
        → EachRight (λ node. test (position_of node) ≡ true) e
        → AllByRecursion (IsPlaced piece (λ at. test at ≡ true)) (right_code setting variables piece e start depth) }
    ensures address { (setting : Setting) (variables : List VariableDecl) (piece : ℕ) (test : Pos → Bool) (e : LeftValue) (start depth : ℕ)
        → EachLeft (λ node. test (position_of node) ≡ true) e
        → AllByRecursion (IsPlaced piece (λ at. test at ≡ true)) (address_code setting variables piece e start depth) }
{}

/// The code of an expression leaves one more value on the stack than there was, of the kind of its type. If the type is
/// `void`, the value may be of any kind. So if control that goes on after the code finds the operands of that many
/// operations, control that comes to its first operation does too, and each operation on the way has its operands and
/// notes how many values are on the stack. An address is a pointer.
///
/// The clauses require that the expression is typed, and that no argument of a call is of type `void` (`KindsFit`).
pub fn expressions_leave_one_value()
    ensures value { (program : TypedProgram) (function : TypedFunction) (code : FunctionCode) (piece : ℕ) (e : RightValue) (start count : ℕ)
        (kinds : List Kind)
        → IsRight program.types
        → EachRight (KindsFit program function) e
        → Holds code start (right_code (setting_of program) function.variables piece e start (length kinds))
        → ((kind : Kind) → IsOf program.types (type_of e) kind → Stacked (scope_of program function) code count
        (after start (right_code (setting_of program) function.variables piece e start (length kinds))) (kind ∷ kinds))
        → Stacked (scope_of program function) code count start kinds }
    ensures address { (program : TypedProgram) (function : TypedFunction) (code : FunctionCode) (piece : ℕ) (e : LeftValue) (start count : ℕ)
        (kinds : List Kind)
        → IsRight program.types
        → EachLeft (KindsFit program function) e
        → Holds code start (address_code (setting_of program) function.variables piece e start (length kinds))
        → Stacked (scope_of program function) code count
        (after start (address_code (setting_of program) function.variables piece e start (length kinds))) (pointer ∷ kinds)
        → Stacked (scope_of program function) code count start kinds }
{}

/// What the operations of an expression name is there, and the operations to which they go are in the code of the function, if one follows the
/// expression: variables, of which a slot is read or set and an object has its address taken, string literals, functions, routines and classes.
/// The same holds of the address of an lvalue that is no slot.
///
/// It is asked that the expression is typed, and that its classes are among `classes` (`NamesFit`). Those of a program are so, by
/// `programs_name_what_is_there`.
pub fn expressions_name_what_is_there()
    ensures value { (program : TypedProgram) (classes : List Class) (function : TypedFunction) (code : FunctionCode) (piece : ℕ) (e : RightValue)
        (start depth : ℕ)
        → EachRight (NamesFit program classes function) e
        → after start (right_code (setting_of program) function.variables piece e start depth) < length code.ops
        → AllByRecursion (λ one. IsInRange program classes function code one.op)
        (right_code (setting_of program) function.variables piece e start depth) }
    ensures address { (program : TypedProgram) (classes : List Class) (function : TypedFunction) (code : FunctionCode) (piece : ℕ) (e : LeftValue)
        (start depth : ℕ)
        → EachLeft (NamesFit program classes function) e
        → slot_of (setting_of program) function.variables e ≡ None
        → after start (address_code (setting_of program) function.variables piece e start depth) < length code.ops
        → AllByRecursion (λ one. IsInRange program classes function code one.op)
        (address_code (setting_of program) function.variables piece e start depth) }
{}

/// Each expression of a program names what is there: variables, string literals, functions and routines, and classes of the program. What has
/// its address taken is marked, and so no slot. So what the operations of each function name is there too, apart from the operations to which
/// they go.
pub fn programs_name_what_is_there(program: &Program)
    ensures expressions { ∥ EachNode (view_program program.now) (NamesFit (view_program program.now) (classes_of (view_program program.now))) ∥₁ }
    ensures code { ∥ AllByRecursion (FunctionNames (view_program program.now)) (view_program program.now).functions ∥₁ }
{}

/// The code of each function of a program is in range: what an operation names is there, it goes to operations of the function, and chooses among
/// its cases, which go to operations of it too.
pub fn code_of_programs_is_in_range(program: &Program)
    ensures { ∥ AllByRecursion (IsRanged (view_program program.now)) (view_program program.now).functions ∥₁ }
{}

/// The code of a program is code (`IsCode`): each function has one, which is in range as above, and in which each operation that control can reach
/// has its operands on the stack, of the kinds that it takes, and notes how many values are there. What a `return` takes is of the kind of the
/// function's result.
pub fn code_of_programs_is_code(program: &Program)
    ensures { ∥ IsCode (view_program program.now) (classes_of (view_program program.now)) (codes_of (view_program program.now)) ∥₁ }
{
    program.types.is_right();
}

/// The code of a program runs as the program does: for every input, schedule and number of turns, its run without choices ends as the run of the
/// program, with the same output, and in no other way.
pub fn code_of_programs_is_exact(program: &Program)
    ensures { ∥ IsExact (view_program program.now) ∥₁ }
{}
