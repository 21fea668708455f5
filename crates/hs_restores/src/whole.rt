//! The effects of the functions of a program.

ghost use Rattle.std.specs.Prelude.{◌≡◌, ◌≤◌, IfOk, length};
ghost use Rattle.hs_effects.specs.Answers.{IsExact};
ghost use Rattle.hs_effects.specs.Calling.{whole_of};
ghost use Rattle.hs_rows.specs.Sets.{width};

use crate::finding::restores_of;
use hs_base::NoMemory;
use hs_code::Code;
use hs_effects::{EffectTable, assigned_under_calls, effects_with_restores};
use std::alloc::Global;

/// The effects of the functions of a program. A function has an effect if an operation of it has the effect, or of a function to which a chain of
/// calls leads from it.
///
/// Example: a function that locks a handle, and puts back the state that it read before, has the effect `Effects::BITS` alone.
///
/// # Errors
///
/// `NoMemory` if memory runs out.
pub fn effects(alloc: Global, code: &Code) -> Result<EffectTable, NoMemory>
    ensures functions { IfOk result (λ table. table.effects.count ≡ length code.now.functions.items) }
    ensures assigned { IfOk result (λ table. table.assigned.count ≡ length code.now.functions.items) }
    ensures globals { IfOk result (λ table. length code.now.program.now.globals ≤ width table.assigned) }
    ensures exact { IfOk result (λ table. IsExact (whole_of code.now) table) }
{
    let assigned = assigned_under_calls(alloc, code)?;
    let restores = restores_of(alloc, code, &assigned)?;
    effects_with_restores(alloc, code, restores)
}
