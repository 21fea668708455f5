//! Laws of kinds. Each is a function without a body, so that a caller can name it.
ghost use Rattle.std.specs.Prelude.{◌≡◌, ℕ, Bool, false, List, map, slice_get, Some};
ghost use Rattle.hs_code.specs.Codes.{IsCode};
ghost use Rattle.hs_code.specs.Stacks.{Kind};
ghost use Rattle.hs_code.specs.declared.function_code.FunctionCode.{FunctionCode};
ghost use Rattle.hs_code_run.specs.Codes.{CodeFunction, CodeProgram, Point, code_program, functions_with};
ghost use Rattle.hs_code_run.specs.Runs.{begun};
ghost use Rattle.hs_code_run.specs.Steps.{stepped};
ghost use Rattle.hs_heap.specs.declared.decision.Decision.{Decision};
ghost use Rattle.hs_kinds.specs.Kinds.{IsOfKind, AreOfKinds};
ghost use Rattle.hs_kinds.specs.Operations.{kind_reached};
ghost use Rattle.hs_kinds.specs.Points.{IsTypedCode, IsKindPoint};
ghost use Rattle.hs_kinds.specs.Progress.{operands_of, is_own, typed_stops, typed_store_stop};
ghost use Rattle.hs_kinds.specs.RoleProgress.{shapes_of, typed_role_stops};
ghost use Rattle.hs_kinds.specs.Routines.{shape_kind};
ghost use Rattle.hs_kinds.specs.Steps.{RanTo};
ghost use Rattle.hs_kinds.specs.Suits.{IsSuited};
ghost use Rattle.hs_meaning.specs.Machine.{Machine};
ghost use Rattle.hs_meaning.specs.Operations.{Operation, operation_stops, is_plain};
ghost use Rattle.hs_meaning.specs.Roles.{role_stops};
ghost use Rattle.hs_meaning.specs.Runs.{starting};
ghost use Rattle.hs_meaning.specs.Settings.{setting_of};
ghost use Rattle.hs_meaning.specs.Steps.{State, went};
ghost use Rattle.hs_meaning.specs.Stops.{first_stop};
ghost use Rattle.hs_meaning.specs.Values.{Value, Access, store_stop};
ghost use Rattle.hs_meaning.specs.declared.input.Input.{Input};
ghost use Rattle.hs_table.specs.declared.role.Role.{Role};
ghost use Rattle.hs_tree.specs.Fitting.{Fits};
ghost use Rattle.hs_tree.specs.Trees.{TypedProgram};
ghost use Rattle.hs_tree.specs.declared.class.Class.{Class};

/// What a typed program and its code keep is all that the laws below ask of code: its stacks are checked, its routines are declared as their roles ask,
/// and `main` gives a number or nothing.
pub fn typed_code_keeps_what_a_step_asks_for()
    ensures { (program : TypedProgram) (classes : List Class) (its : List FunctionCode)
        → IsCode program classes its → Fits program → IsTypedCode (code_program program its) }
{}

/// The first point of each run of the code of a typed program has values of their kinds in its globals, in the variables of `main` and on its stack.
pub fn a_run_begins_with_values_of_their_kinds()
    ensures { (program : TypedProgram) (classes : List Class) (its : List FunctionCode)
        → IsCode program classes its → Fits program
        → (choices : List Bool) (input : Input) (schedule : List Decision) (turns : ℕ) (function : CodeFunction)
        → slice_get (functions_with program.functions its) program.main ≡ Some function
        → RanTo (IsKindPoint (code_program program its))
        (begun (code_program program its) choices function (starting (setting_of program) input schedule turns)) }
{}

/// A step leads from a point whose values are of their kinds to such a point, whatever the schedule decides.
pub fn a_step_keeps_the_kinds_of_values()
    ensures { (program : CodeProgram) → IsTypedCode program
        → (point : Point) (s : State) → IsKindPoint program point s
        → (next : Point) (t : State) → stepped program point s ≡ went next t → IsKindPoint program next t }
{}

/// At such a point there is an operation, its operands are on the stack and of their kinds, and what it names is there: a slot for Get and Set, a
/// routine or a function with its arguments for a call.
pub fn an_operation_finds_what_it_asks_for()
    ensures { (program : CodeProgram) → IsTypedCode program
        → (point : Point) (s : State) → IsKindPoint program point s → IsSuited program point s }
{}

/// The stops of an operation that has operands of their kinds are those that `typed_stops` lists: none says that an operand is of another sort.
pub fn an_operation_stops_for_no_operand_of_another_sort()
    ensures { (machine : Machine) (slot_kind : Kind) (its : Operation) (values : List Value)
        → is_own its ≡ false → AreOfKinds (operands_of slot_kind its) values
        → first_stop (operation_stops its values machine) ≡ first_stop (typed_stops its values machine) }
{}

/// A store of a value of its kind stops only for a state byte that goes into more than one byte.
pub fn a_store_stops_for_no_value_of_another_sort()
    ensures { (access : Access) (value : Value) → IsOfKind (kind_reached access) value → store_stop access value ≡ typed_store_stop access value }
{}

/// The stops of a routine with a role are those that `typed_role_stops` lists, if its arguments are of their kinds.
pub fn a_role_stops_for_no_argument_of_another_sort()
    ensures { (machine : Machine) (its : Role) (values : List Value)
        → is_plain its ≡ false → AreOfKinds (map shape_kind (shapes_of its)) values
        → first_stop (role_stops its values machine) ≡ first_stop (typed_role_stops its values machine) }
{}
