//! Numbers of functions, and those of them that are not handed on to the callers yet.

ghost use Rattle.std.specs.Prelude.{◌≡◌, ◌<◌, ◌≤◌, ℕ, OnOk, IfOk, []};
ghost use Rattle.std.specs.List.{Contains};
ghost use Rattle.hs_effects.specs.Working.{Grows, IsIn, Only, Waits};
ghost use Rattle.hs_rows.specs.Sets.{width};

use hs_base::NoMemory;
use hs_rows::Rows;
use std::alloc::Global;

/// A function that has a number.
#[derive(Clone, Copy)]
pub(crate) struct Pair {
    pub function: usize,
    pub number: usize,
}

/// The numbers that each function has so far, and those that wait to be handed on to its callers.
#[derive(Drop)]
pub(crate) struct Work {
    pub rows: Rows,
    pub waiting: Vec<Pair>,
}

/// So many functions without numbers, which are to be below that one.
pub(crate) fn no_work(alloc: Global, functions: usize, numbers: usize) -> Result<Work, NoMemory>
    ensures functions { IfOk result (λ work. work.rows.count ≡ functions) }
    ensures numbers { IfOk result (λ work. numbers ≤ width work.rows) }
    ensures empty { IfOk result (λ work. (f b : ℕ) → ¬ (IsIn work.rows f b)) }
    ensures none { IfOk result (λ work. work.waiting.items ≡ []) }
{
    Ok(Work {
        rows: Rows::new(alloc, functions, numbers)?,
        waiting: Vec::new(alloc),
    })
}

/// Gives a function a number. If it did not have it, it waits.
pub(crate) fn put(work: &mut Work, function: usize, number: usize) -> Result<(), NoMemory>
    requires function_in_range { function < work.old.rows.count }
    requires number_in_range { number < width work.old.rows }
    ensures grows { OnOk result (Grows (Only function number) work.old work.new) }
{
    if work.rows.put(function, number) {
        work.waiting.push(Pair { function, number })?;
    }
    Ok(())
}

/// Gives each of those functions a number.
pub(crate) fn put_all(work: &mut Work, functions: &[usize], number: usize) -> Result<(), NoMemory>
    requires functions_in_range { (f : ℕ) → Contains functions.now f → f < work.old.rows.count }
    requires number_in_range { number < width work.old.rows }
    ensures grows { OnOk result (Grows (λ f b. Contains functions.now f × (b ≡ number)) work.old work.new) }
{
    'functions: for function in functions {
        put(work, *function, number)?;
    }
    Ok(())
}
