//! The effects that functions have by their own operations.

ghost use Rattle.std.specs.Prelude.{◌≡◌, ◌<◌, ◌≤◌, ◌↔◌, ℕ, true, IfOk, OnOk, length};
ghost use Rattle.hs_effects.specs.Calling.{whole_of};
ghost use Rattle.hs_effects.specs.Effecting.{HasNumber, flag, number_of, restored};
ghost use Rattle.hs_effects.specs.Owning.{OwnsIn, Owns};
ghost use Rattle.hs_effects.specs.Working.{AllWait, Grows, IsIn, Only};
ghost use Rattle.hs_facts.specs.Effects.{Effect};
ghost use Rattle.hs_rows.specs.Sets.{width};

use crate::op_effects::{OpEffects, effects_of_op};
use crate::work::{Work, no_work, put};
use hs_base::NoMemory;
use hs_code::{Code, Placed};
use hs_tree::BoundRoutine;
use std::alloc::Global;

/// The effects that each function has itself, by their numbers. The restores are noted.
pub(crate) fn own_effects(
    alloc: Global,
    code: &Code,
    restores: &[Vec<bool>],
) -> Result<Work, NoMemory>
    ensures functions { IfOk result (λ work. work.rows.count ≡ length code.now.functions.items) }
    ensures numbers { IfOk result (λ work. 6 ≤ width work.rows) }
    ensures wait { IfOk result (λ work. AllWait work) }
    ensures exact { IfOk result (λ work. (f b : ℕ) → IsIn work.rows f b
        ↔ Owns (HasNumber code.now.program.now.routines restores.now) (whole_of code.now) f b) }
{
    let mut work = no_work(alloc, code.functions.len(), 6)?;
    'functions: for (function, its) in code.functions.iter().enumerate() {
        put_effects(
            &mut work,
            function,
            its.ops.items(),
            code.program.routines.items(),
            restores,
        )?;
    }
    Ok(work)
}

/// Gives a function the effects of its operations.
fn put_effects(
    work: &mut Work,
    function: usize,
    ops: &[Placed],
    routines: &[BoundRoutine],
    restores: &[Vec<bool>],
) -> Result<(), NoMemory>
    requires function_in_range { function < work.old.rows.count }
    requires numbers_in_range { 6 ≤ width work.old.rows }
    ensures grows { OnOk result (Grows (OwnsIn (HasNumber routines.now restores.now) ops.now (length ops.now) function) work.old work.new) }
{
    'ops: for (at, its) in ops.iter().enumerate() {
        let has = effects_of_op(routines, its.op, is_restore(restores, function, at));
        put_each(work, function, has)?;
    }
    Ok(())
}

/// Whether the operation is noted as a restore.
pub(crate) fn is_restore(restores: &[Vec<bool>], function: usize, at: usize) -> bool
    ensures { result ≡ restored restores.now function at }
{
    match restores.get(function) {
        Some(row) => match row.get(at) {
            Some(it) => *it,
            None => false,
        },
        None => false,
    }
}

/// Gives a function those effects.
fn put_each(work: &mut Work, function: usize, its: OpEffects) -> Result<(), NoMemory>
    requires function_in_range { function < work.old.rows.count }
    requires numbers_in_range { 6 ≤ width work.old.rows }
    ensures grows { OnOk result (Grows (λ f b. (f ≡ function) × ((effect : Effect) × (b ≡ number_of effect) × (flag its effect ≡ true)))
        work.old work.new) }
{
    put_if(work, function, 0, its.moves)?;
    put_if(work, function, 1, its.purges)?;
    put_if(work, function, 2, its.unlocks)?;
    put_if(work, function, 3, its.marks)?;
    put_if(work, function, 4, its.bits)?;
    put_if(work, function, 5, its.disposes)?;
    Ok(())
}

/// Gives a function a number, if it has it.
fn put_if(work: &mut Work, function: usize, number: usize, has: bool) -> Result<(), NoMemory>
    requires function_in_range { function < work.old.rows.count }
    requires number_in_range { number < width work.old.rows }
    ensures grows { OnOk result (Grows (λ f b. (has ≡ true) × Only function number f b) work.old work.new) }
{
    if has {
        put(work, function, number)?;
    }
    Ok(())
}
