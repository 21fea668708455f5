//! Handing numbers on to callers, until each function has those of all functions that it calls.

ghost use Rattle.std.specs.List.{Contains};
ghost use Rattle.std.specs.Prelude.{◌≡◌, ◌<◌, ◌≤◌, ◌↔◌, ℕ, OnOk, IfOk, length};
ghost use Rattle.hs_effects.specs.Calling.{Gets, callers_from};
ghost use Rattle.hs_effects.specs.Working.{AllWait, IsIn, Waits};
ghost use Rattle.hs_rows.specs.Sets.{SameSize};

use crate::work::{Work, put_all};
use hs_base::NoMemory;
use hs_rows::Rows;

/// The numbers that a function has itself or gets from a function that it calls.
pub(crate) fn closed(work: Work, callers: &[Vec<usize>]) -> Result<Rows, NoMemory>
    requires each { length callers.now ≡ work.rows.count }
    requires callers_in_range { (f c : ℕ) → Contains (callers_from callers.now f) c → c < work.rows.count }
    requires all_wait { AllWait work }
    ensures size { IfOk result (λ rows. SameSize work.rows rows) }
    ensures exact { IfOk result (λ rows. (f b : ℕ) → IsIn rows f b ↔ Gets callers.now (IsIn work.rows) f b) }
{
    let mut work = work;
    'pairs: while let Some(pair) = work.waiting.pop() {
        put_all(&mut work, callers_of(callers, pair.function), pair.number)?;
    }
    Ok(work.rows)
}

/// The callers of the function.
fn callers_of<'a>(callers: &'a [Vec<usize>], function: usize) -> &'a [usize]
    requires known { function < length callers.now }
    ensures { result.now ≡ callers_from callers.now function }
{
    callers[function].as_slice()
}
