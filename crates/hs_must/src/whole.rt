//! The must facts of a program.

ghost use Rattle.std.specs.Prelude.{◌≡◌, ◌≤◌, length};
ghost use Rattle.hs_effects.specs.Answers.{IsExact};
ghost use Rattle.hs_effects.specs.Calling.{whole_of};
ghost use Rattle.hs_must.specs.Ends.{Ends};
ghost use Rattle.hs_rows.specs.Sets.{width};

use crate::finding::all_facts;
use crate::{Must, MustEnd};
use hs_base::LimitKind;
use hs_code::Code;
use hs_effects::EffectTable;
use std::alloc::Global;

/// Finds the must facts of a program, from the effects of its functions.
///
/// Example: in `void f(Handle h) { HLock(h); g(); }` the name 0 of `f` is locked at the call of `g`.
///
/// # Errors
///
/// `Limit` with the limit `Names` if a function has more than 64 handle names, and then no answer; `NoMemory` if memory runs out.
pub fn must(alloc: Global, code: &Code, effects: &EffectTable) -> Result<Must, MustEnd>
    requires functions { effects.now.effects.count ≡ length code.now.functions.items }
    requires assigned { effects.now.assigned.count ≡ length code.now.functions.items }
    requires globals { length code.now.program.now.globals ≤ width effects.now.assigned }
    requires exact { IsExact (whole_of code.now) effects.now }
    ensures { Ends (whole_of code.now) result }
{
    match all_facts(alloc, code, effects) {
        Ok(Some(functions)) => Ok(Must { functions }),
        Ok(None) => Err(MustEnd::Limit(LimitKind::Names.passed())),
        Err(_) => Err(MustEnd::NoMemory),
    }
}
