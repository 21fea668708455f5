//! The handle names of a function.

ghost use Rattle.std.specs.Prelude.{◌≡◌, IfOk};
ghost use Rattle.hs_facts.specs.Names.{names_of};
ghost use Rattle.hs_restores.specs.Stepping.{scope_in};
ghost use Rattle.hs_tree.specs.Views.{view_function};

use crate::marks::{handle_globals, handle_locals};
use crate::numbers::{Numbers, number_marked};
use hs_base::NoMemory;
use hs_code::FunctionCode;
use hs_tree::{Function, Program};
use std::alloc::Global;

/// The handle names of a function: its parameters and other locals that point to pointers and are slots, and the globals that do so and that its
/// operations get or set.
///
/// Example: the locals 0 and 1 of `void f(Handle h, char **p, int n)`.
pub fn names_of(
    alloc: Global,
    program: &Program,
    function: &Function,
    code: &FunctionCode,
) -> Result<Numbers, NoMemory>
    ensures { IfOk result (λ its. its ≡ names_of (scope_in program.now (view_function function.now)) code.now) }
{
    let types = &program.types;
    let locals = handle_locals(alloc, types, function.variables.items())?;
    let globals = handle_globals(alloc, types, program.globals.items(), code.ops.items())?;
    number_marked(alloc, &locals, &globals)
}
