//! The classes that a program names.

ghost use Rattle.std.specs.Prelude.{◌≡◌, OnOk, IfOk, fold};
ghost use Rattle.hs_code.specs.Codes.{view_program};
ghost use Rattle.hs_meaning.specs.Classes.{classes_of};
ghost use Rattle.hs_classes.specs.Steps.{function_step};

use crate::objects::{globals, objects};
use crate::statements::block;
use crate::within::{Within, parameters};
use hs_base::NoMemory;
use hs_lower_expressions::Classes;
use hs_tree::{Function, Program};
use std::alloc::Global;

/// Lists the classes of pointers that the program names, each once, in the order in which it first names them: what its objects start
/// with, and then function by function.
///
/// Fails if memory runs out.
///
/// Example: for `s.b = 0; s.a = s.b;`, if `a` and `b` are pointers and the program never takes their addresses: the class of the field `b`,
/// and then that of `a`.
#[tactic(auto, using(crate::proofs::Equations::classes_are))]
pub fn classes(alloc: Global, program: &Program) -> Result<Classes, NoMemory>
    ensures { IfOk result (λ its. its ≡ classes_of (view_program program.now)) }
{
    let mut classes = Classes::new(alloc);
    globals(program, &mut classes, program.globals.items())?;
    functions(alloc, program, &mut classes, &program.functions)?;
    Ok(classes)
}

/// Adds the classes that a function names: its parameters, and then its body.
#[tactic(auto, using(crate::proofs::Equations::function_is), unfolding(crate::specs::Steps::function_in))]
fn function(
    alloc: Global,
    program: &Program,
    classes: &mut Classes,
    it: &Function,
) -> Result<(), NoMemory>
    ensures { OnOk result (classes.new ≡ function_step program.now classes.old it.now) }
{
    objects(program, classes, parameters(it))?;
    let within = Within {
        program,
        function: it,
    };
    block(alloc, &within, classes, &it.body)
}

/// Adds the classes that functions name.
fn functions(
    alloc: Global,
    program: &Program,
    classes: &mut Classes,
    its: &[Function],
) -> Result<(), NoMemory>
    ensures { OnOk result (classes.new ≡ fold (function_step program.now) classes.old its.now) }
{
    for it in its {
        function(alloc, program, classes, it)?;
    }
    Ok(())
}
