//! The slots whose bytes are known: those that a function changes.

ghost use Rattle.std.specs.Prelude.{◌≡◌, ◌<◌, ◌≤◌, ℕ, false, IfOk, length, slice_index_or};
ghost use Rattle.hs_restores.specs.Laws.Numbering.{is_in};
ghost use Rattle.hs_restores.specs.Marks.{assigned_globals, is_changed, local_set_by, one_names};
ghost use Rattle.hs_rows.specs.Sets.{has, width};
ghost use Rattle.hs_restores.specs.Stepping.{scope_in};
ghost use Rattle.hs_tree.specs.Views.{view_function};
ghost use Rattle.hs_tree.specs.declared.head.Variable.{Variable};

use crate::marks::put_mark;
use crate::numbers::{Numbers, number_marked};
use hs_base::NoMemory;
use hs_code::{FunctionCode, Op, Placed};
use hs_effects::Assignments;
use hs_tree::{Function, Global as Object, Program, Variable};
use std::alloc::Global;

/// The variables that a function changes: the locals that its operations set, and the globals that it may assign, itself or in the functions that it
/// calls. `number` is its own number.
///
/// Example: the local 1 and the global 0 for `void f(int a, int b) { b = 1; g(); }` if `g` assigns the first global.
pub fn slots_of(
    alloc: Global,
    program: &Program,
    function: &Function,
    code: &FunctionCode,
    number: u32,
    assigned: &Assignments,
) -> Result<Numbers, NoMemory>
    requires function_in_range { number < assigned.now.count }
    requires globals_in_range { length program.now.globals ≤ width assigned.now }
    ensures { IfOk result (λ its. (v : Variable) → is_in its v
        ≡ is_changed (scope_in program.now (view_function function.now)) code.now (has assigned.now number) v) }
{
    let locals = set_locals(alloc, function.variables.items().len(), code.ops.items())?;
    let globals = assigned_globals(alloc, program.globals.items(), number, assigned)?;
    number_marked(alloc, &locals, &globals)
}

/// Marks the locals below that number which the operations set.
fn set_locals(alloc: Global, count: usize, ops: &[Placed]) -> Result<Vec<bool>, NoMemory>
    ensures count { IfOk result (λ its. length its.items ≡ count) }
    ensures marks { IfOk result (λ its. (p : ℕ) → p < count → slice_index_or its.items p false ≡ one_names local_set_by ops.now p) }
{
    let mut marks = Vec::from_elem(alloc, false, count)?;
    'ops: for its in ops {
        put_mark(marks.as_mut_slice(), local_set_by(its.op));
    }
    Ok(marks)
}

/// The local that an operation sets.
fn local_set_by(op: Op) -> Option<usize>
    ensures { result ≡ local_set_by op }
{
    match op {
        Op::Set(Variable::Local(place)) => Some(place as usize),
        _ => None,
    }
}

/// Marks the globals that the function of that number may assign.
fn assigned_globals(
    alloc: Global,
    globals: &[Object],
    number: u32,
    assigned: &Assignments,
) -> Result<Vec<bool>, NoMemory>
    requires function_in_range { number < assigned.now.count }
    requires globals_in_range { length globals.now ≤ width assigned.now }
    ensures { IfOk result (λ its. its.items ≡ assigned_globals (has assigned.now number) 0 globals.now) }
{
    let mut marks = Vec::new(alloc);
    'globals: for (place, _it) in globals.iter().enumerate() {
        let global = u32::try_from(place).or(Err(NoMemory))?;
        marks.push(assigned.assigns(number, global))?;
    }
    Ok(marks)
}
