//! The functions that call each function.

ghost use Rattle.std.specs.Prelude.{◌≡◌, ◌<◌, ℕ, [], IfOk, OnOk, length};
ghost use Rattle.hs_effects.specs.Calling.{AreCallers, CallerPut, CallsPut, IsCallIn, callee_of, callers_from, whole_of};

use hs_base::NoMemory;
use hs_code::{Code, Op, Placed};
use std::alloc::Global;

/// The callers of each function, a function once for each of its calls.
pub(crate) fn callers(alloc: Global, code: &Code) -> Result<Vec<Vec<usize>>, NoMemory>
    ensures each { IfOk result (λ rows. length rows.items ≡ length code.now.functions.items) }
    ensures right { IfOk result (λ rows. AreCallers (whole_of code.now) rows.items) }
{
    let mut rows = no_callers(alloc, code.functions.len())?;
    'functions: for (caller, function) in code.functions.iter().enumerate() {
        put_calls(&mut rows, caller, function.ops.items())?;
    }
    Ok(rows)
}

/// So many functions without a caller.
fn no_callers(alloc: Global, functions: usize) -> Result<Vec<Vec<usize>>, NoMemory>
    ensures empty { IfOk result (λ rows. (f : ℕ) → callers_from rows.items f ≡ []) }
    ensures each { IfOk result (λ rows. length rows.items ≡ functions) }
{
    let mut rows = Vec::new(alloc);
    'functions: for _function in 0..functions {
        rows.push(Vec::new(alloc))?;
    }
    Ok(rows)
}

/// Puts a function among the callers of those that it calls.
fn put_calls(rows: &mut Vec<Vec<usize>>, caller: usize, ops: &[Placed]) -> Result<(), NoMemory>
    requires in_range { (at g : ℕ) → IsCallIn ops.now at g → g < length rows.old.items }
    ensures put { OnOk result (CallsPut ops.now caller (length ops.now) rows.old.items rows.new.items) }
{
    'ops: for its in ops {
        if let Some(callee) = callee_of(its.op) {
            put_caller(rows, callee, caller)?;
        }
    }
    Ok(())
}

/// The function that the operation calls.
fn callee_of(op: Op) -> Option<usize>
    ensures { result ≡ callee_of op }
{
    match op {
        Op::Call(callee) => Some(callee as usize),
        _ => None,
    }
}

/// Puts a function at the end of the callers of another one.
fn put_caller(rows: &mut Vec<Vec<usize>>, callee: usize, caller: usize) -> Result<(), NoMemory>
    requires known { callee < length rows.old.items }
    ensures put { OnOk result (CallerPut callee caller rows.old.items rows.new.items) }
{
    rows[callee].push(caller)?;
    Ok(())
}
