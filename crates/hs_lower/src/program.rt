//! The code of functions and of programs.

ghost use Rattle.std.specs.Prelude.{◌≡◌, ◌≤◌, ◌<◌, length, map, OnOk, IfOk};
ghost use Rattle.hs_code.specs.Codes.{IsCode, view_program};
ghost use Rattle.hs_lower_expressions.specs.Emits.{most_ops};
ghost use Rattle.hs_lowering.specs.Statements.{function_code, as_code, functions_code, codes_of};
ghost use Rattle.hs_meaning.specs.Classes.{classes_of};
ghost use Rattle.hs_tree.specs.Views.{view_function};
ghost use Rattle.hs_lower.specs.Lowered.{Lowers};
ghost use Rattle.hs_lower.specs.Places.{setting_here, setting_with, function_here};
ghost use Rattle.hs_lower.specs.Writing.{Written, Ends, function_steps, count_ops};

use crate::lower_end::LowerEnd;
use crate::lowering::Lowering;
use crate::parts::put_return;
use crate::statements::block;
use crate::text::{CaseList, Text};
use hs_base::LimitKind;
use hs_classes::classes;
use hs_code::{Cases, Code, FunctionCode, Operations};
use hs_lower_expressions::{Classes, EmitEnd, Exits, Ops};
use hs_tree::{Class, Function, Program};
use std::alloc::Global;

/// Writes the body of a function, and its end. Pieces 0 and 1 are its entry and its exit.
#[tactic(auto, unfolding(crate::specs::Writing::function_steps))]
fn write(alloc: Global, lowering: &Lowering) -> Result<Text, EmitEnd>
    ensures done { Written (function_steps (setting_here lowering.now) (function_here lowering.now)) result }
{
    let mut text = Text {
        ops: Ops::new(alloc),
        cases: CaseList::new(alloc),
        pieces: 2,
    };
    let body = &lowering.function.body;
    block(alloc, lowering, &mut text, body)?;
    let end = text.ops.len();
    put_return(lowering, &mut text, 1, body.closing.pos)?;
    let exits = Exits {
        breaks: end,
        continues: end,
    };
    text.ops.aim(0, exits);
    Ok(text)
}

/// The code of a function.
fn function(alloc: Global, lowering: &Lowering) -> Result<FunctionCode, EmitEnd>
    ensures code { Ends result (λ its. its ≡ as_code (function_code (setting_here lowering.now) (function_here lowering.now)))
        (most_ops < length (function_code (setting_here lowering.now) (function_here lowering.now)).ops) }
    ensures few { IfOk result (λ its. length its.ops ≤ most_ops) }
{
    let Text { ops, cases, .. } = write(alloc, lowering)?;
    Ok(FunctionCode {
        ops: Operations::from_vec(ops.into_vec()),
        cases: Cases::from_vec(cases.into_vec()),
    })
}

/// The code of functions of the program, in their order.
fn functions(
    alloc: Global,
    program: &Program,
    classes: &Classes,
    its: &[Function],
) -> Result<Vec<FunctionCode>, EmitEnd>
    ensures code { Ends result (λ done. done.items ≡ functions_code (setting_with program.now classes.now) (map view_function its.now))
        (most_ops < count_ops (functions_code (setting_with program.now classes.now) (map view_function its.now))) }
    ensures few { IfOk result (λ done. count_ops done.items ≤ most_ops) }
{
    let mut done = Vec::new(alloc);
    let mut count = 0u32;
    for function in its {
        let lowering = Lowering {
            program,
            classes,
            function,
        };
        let code = self::function(alloc, &lowering)?;
        count += code.ops.items().len() as u32;
        if u64::from(count) > LimitKind::Ops.number() {
            return Err(EmitEnd::Limit);
        }
        done.push(code)?;
    }
    Ok(done)
}

/// Puts the parts of code together, of which it is known that they are the code of the program.
fn assembled(program: &Program, classes: Vec<Class>, functions: Vec<FunctionCode>) -> Code<'_>
    requires whole { ∥ IsCode (view_program program.now) classes.items functions.items ∥₁ }
    ensures program { result.program.now ≡ program.now }
    ensures classes { result.classes.items ≡ classes.items }
    ensures functions { result.functions.items ≡ functions.items }
{
    Code {
        program,
        classes,
        functions,
    }
}

/// The code of a program, or why emitting it stops.
fn lowered(alloc: Global, program: &Program) -> Result<Code<'_>, EmitEnd>
    ensures program { IfOk result (λ code. code.program.now ≡ program.now) }
    ensures classes { IfOk result (λ code. code.classes.items ≡ classes_of (view_program program.now)) }
    ensures code { Ends result (λ code. code.functions.items ≡ codes_of (view_program program.now))
        (most_ops < count_ops (codes_of (view_program program.now))) }
    ensures few { IfOk result (λ code. count_ops code.functions.items ≤ most_ops) }
{
    program.types.is_right();
    let classes = classes(alloc, program)?;
    let functions = functions(alloc, program, &classes, &program.functions)?;
    Ok(assembled(program, classes.to_vec(alloc)?, functions))
}

/// Lowers a typed program: each function to operations, as `specs/Statements.antt` of `hs_lowering` defines them, over the classes of pointers of
/// the program. For every input, schedule and number of turns the run of this code is the run of the program: `code_of_programs_is_exact` of
/// `hs_lowering` says so of `codes_of`, which is what this gives. The code keeps in its type that it is code of the program (`Code`).
///
/// It takes as much time as the program is long, and as its automatic objects with initialisers in braces have scalars. A loop is gone over
/// once more for each loop around it, to give its jumps their targets.
///
/// # Errors
///
/// `Limit` with the limit `Ops` exactly if the operations of all functions would be more than 1000000, and `NoMemory` if memory runs out.
///
/// Example: for `int main(void) { return 3; }` one function, with `Mark`, `Num(3)` and `Return` of its body, and `Mark`, `Num(0)` and `Return` of its
/// end.
pub fn lower(alloc: Global, program: &Program) -> Result<Code<'_>, LowerEnd>
    ensures program { IfOk result (λ code. code.program.now ≡ program.now) }
    ensures classes { IfOk result (λ code. code.classes.items ≡ classes_of (view_program program.now)) }
    ensures code { Lowers result (λ code. code.functions.items ≡ codes_of (view_program program.now))
        (most_ops < count_ops (codes_of (view_program program.now))) }
    ensures few { IfOk result (λ code. count_ops code.functions.items ≤ most_ops) }
{
    match lowered(alloc, program) {
        Ok(code) => Ok(code),
        Err(why) => Err(LowerEnd::of(why)),
    }
}
