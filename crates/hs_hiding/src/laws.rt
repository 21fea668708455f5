//! Laws of hidden blocks. Each is a function without a body, so that a caller can name it.

ghost use Rattle.std.specs.List.{AllByRecursion};
ghost use Rattle.std.specs.Prelude.{ℕ, List};
ghost use Rattle.hs_hiding.specs.Holding.{Hands, IsAlive, Lacking, LackingOutside, Lacks, OnDone};
ghost use Rattle.hs_meaning.specs.Frames.{opened};
ghost use Rattle.hs_meaning.specs.Machine.{Machine};
ghost use Rattle.hs_meaning.specs.Operations.{Operation, operate};
ghost use Rattle.hs_meaning.specs.Settings.{Setting};
ghost use Rattle.hs_meaning.specs.Values.{Value};
ghost use Rattle.hs_tree.specs.declared.head.VariableDecl.{VariableDecl};

/// An operation hands on no handle of a block that none of its operands, no variable and no cell has one of: neither is there one in what it gives,
/// nor in a variable or a cell after it. Only the operation that makes the block gives its handle.
pub fn no_operation_hands_on_a_hidden_block()
    ensures { (n : ℕ) (setting : Setting) (its : Operation) (values : List Value) (machine : Machine)
        → AllByRecursion (Lacks n) values → Lacking n machine
        → Hands n machine (operate setting its values machine) }
{}

/// An operation disposes of no block that none of its operands has a handle of.
pub fn no_operation_disposes_of_a_hidden_block()
    ensures { (n : ℕ) (setting : Setting) (its : Operation) (values : List Value) (machine : Machine)
        → AllByRecursion (Lacks n) values → IsAlive machine n
        → OnDone (λ it after. IsAlive after n) (operate setting its values machine) }
{}

/// A call begins without a handle of a block that none of its arguments, no global and no cell has one of, whatever its caller has in its variables.
pub fn a_call_begins_without_hidden_handles()
    ensures { (n : ℕ) (setting : Setting) (parameters : ℕ) (variables : List VariableDecl) (values : List Value)
        (machine : Machine)
        → AllByRecursion (Lacks n) values → LackingOutside n machine
        → OnDone (λ it after. Lacking n after) (opened setting parameters variables values machine) }
{}
