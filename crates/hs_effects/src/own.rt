//! The globals that a function assigns by its own operations, and the effects that these have.

ghost use Rattle.std.specs.Prelude.{◌≡◌, ◌<◌, ◌≤◌, ◌↔◌, ℕ, IfOk, OnOk, length};
ghost use Rattle.hs_effects.specs.Calling.{whole_of};
ghost use Rattle.hs_effects.specs.Owning.{Assigned, OwnsIn, Owns, assigned_by};
ghost use Rattle.hs_effects.specs.Working.{AllWait, Grows, IsIn};
ghost use Rattle.hs_rows.specs.Sets.{width};

use crate::work::{Work, no_work, put};
use hs_base::NoMemory;
use hs_code::{Code, Op, Placed};
use hs_tree::Variable;
use std::alloc::Global;

/// The globals that each function assigns itself.
pub(crate) fn assigned(alloc: Global, code: &Code) -> Result<Work, NoMemory>
    ensures functions { IfOk result (λ work. work.rows.count ≡ length code.now.functions.items) }
    ensures globals { IfOk result (λ work. length code.now.program.now.globals ≤ width work.rows) }
    ensures wait { IfOk result (λ work. AllWait work) }
    ensures exact { IfOk result (λ work. (f b : ℕ) → IsIn work.rows f b ↔ Owns Assigned (whole_of code.now) f b) }
{
    let mut work = no_work(
        alloc,
        code.functions.len(),
        code.program.globals.items().len(),
    )?;
    'functions: for (function, its) in code.functions.iter().enumerate() {
        put_assigned(&mut work, function, its.ops.items())?;
    }
    Ok(work)
}

/// Gives a function the globals that its operations assign.
fn put_assigned(work: &mut Work, function: usize, ops: &[Placed]) -> Result<(), NoMemory>
    requires function_in_range { function < work.old.rows.count }
    requires globals_in_range { (b : ℕ) → OwnsIn Assigned ops.now (length ops.now) function function b → b < width work.old.rows }
    ensures grows { OnOk result (Grows (OwnsIn Assigned ops.now (length ops.now) function) work.old work.new) }
{
    'ops: for its in ops {
        if let Some(global) = assigned_by(its.op) {
            put(work, function, global)?;
        }
    }
    Ok(())
}

/// The global that the operation assigns.
fn assigned_by(op: Op) -> Option<usize>
    ensures { result ≡ assigned_by op }
{
    match op {
        Op::Set(Variable::Global(global)) => Some(global as usize),
        _ => None,
    }
}
