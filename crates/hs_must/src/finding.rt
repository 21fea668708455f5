//! The facts of the functions of a program.

ghost use Rattle.std.specs.Prelude.{◌≡◌, ◌<◌, ◌≤◌, Some, IfOk, length, option_map, slice_get};
ghost use Rattle.hs_effects.specs.Answers.{IsExact};
ghost use Rattle.hs_effects.specs.Calling.{whole_of};
ghost use Rattle.hs_facts.specs.Names.{names_of};
ghost use Rattle.hs_must.specs.Answers.{AreRows, IsFacts};
ghost use Rattle.hs_must.specs.Ends.{AreFound, Finds, HasNone};
ghost use Rattle.hs_must.specs.declared.kept.Kept.TheVariants as kept;
ghost use Rattle.hs_restores.specs.Stepping.{scope_in};
ghost use Rattle.hs_rows.specs.Sets.{width};
ghost use Rattle.hs_tree.specs.Views.{view_function};

use crate::changing::{Maker, changes_by};
use crate::facts::FunctionFacts;
use crate::kept::Kept;
use hs_base::NoMemory;
use hs_code::{Code, FunctionCode};
use hs_effects::EffectTable;
use hs_fact_rows::Lists;
use hs_lock_rows::{LockJob, clear_own, fits, solve_locks};
use hs_restores::{Assigning, Numbers, Own, WindowRows, names_of, slots_of, window_rows};
use hs_rows::Rows;
use hs_tree::Function;
use std::alloc::Global;

/// The facts of all functions, if none has more than 64 handle names.
pub(crate) fn all_facts(
    alloc: Global,
    code: &Code,
    effects: &EffectTable,
) -> Result<Option<Vec<Kept>>, NoMemory>
    requires functions { effects.now.effects.count ≡ length code.now.functions.items }
    requires assigned { effects.now.assigned.count ≡ length code.now.functions.items }
    requires globals { length code.now.program.now.globals ≤ width effects.now.assigned }
    requires exact { IsExact (whole_of code.now) effects.now }
    ensures { IfOk result (λ found. AreFound (whole_of code.now) (option_map (λ its. its.items) found)) }
{
    let mut all = Vec::new(alloc);
    'functions: for (number, own) in code.functions.iter().enumerate() {
        let number = u32::try_from(number).or(Err(NoMemory))?;
        let Some(kept) = kept_of(alloc, code, number, own, effects)? else {
            return Ok(None);
        };
        all.push(kept)?;
    }
    Ok(Some(all))
}

/// What is kept of a function, if it has no more than 64 handle names.
fn kept_of(
    alloc: Global,
    code: &Code,
    number: u32,
    own: &FunctionCode,
    effects: &EffectTable,
) -> Result<Option<Kept>, NoMemory>
    requires of_code { slice_get code.now.functions.items number ≡ Some own.now }
    requires functions { effects.now.effects.count ≡ length code.now.functions.items }
    requires assigned { effects.now.assigned.count ≡ length code.now.functions.items }
    requires globals { length code.now.program.now.globals ≤ width effects.now.assigned }
    requires exact { IsExact (whole_of code.now) effects.now }
    ensures { IfOk result (Finds (whole_of code.now) number) }
{
    match code.program.functions.get(number as usize) {
        Some(function) => facts_of(alloc, code, number, function, own, effects),
        None => Ok(Some(nameless(alloc, own)?)),
    }
}

/// What is kept of a function without handle names.
fn nameless(alloc: Global, own: &FunctionCode) -> Result<Kept, NoMemory>
    ensures { IfOk result (HasNone own.now) }
{
    let rows = Rows::new(alloc, own.ops.items().len(), 0)?;
    Ok(Kept::Nameless(rows))
}

/// The same of a function that is there.
fn facts_of(
    alloc: Global,
    code: &Code,
    number: u32,
    function: &Function,
    own: &FunctionCode,
    effects: &EffectTable,
) -> Result<Option<Kept>, NoMemory>
    requires of_function { slice_get code.now.program.now.functions.items number ≡ Some function.now }
    requires of_code { slice_get code.now.functions.items number ≡ Some own.now }
    requires functions { effects.now.effects.count ≡ length code.now.functions.items }
    requires assigned { effects.now.assigned.count ≡ length code.now.functions.items }
    requires globals { length code.now.program.now.globals ≤ width effects.now.assigned }
    requires exact { IsExact (whole_of code.now) effects.now }
    ensures { IfOk result (Finds (whole_of code.now) number) }
{
    let names = names_of(alloc, code.program, function, own)?;
    let count = names.items().len();
    if count > 64 {
        return Ok(None);
    }
    if count == 0 {
        return Ok(Some(nameless(alloc, own)?));
    }
    let facts = named_facts(alloc, code, number, function, own, effects, &names)?;
    Ok(Some(Kept::Named(facts)))
}

/// The facts of a function that has so many handle names.
fn named_facts<'a>(
    alloc: Global,
    code: &Code,
    number: u32,
    function: &'a Function,
    own: &'a FunctionCode,
    effects: &'a EffectTable,
    names: &'a Numbers,
) -> Result<FunctionFacts, NoMemory>
    requires of_function { slice_get code.now.program.now.functions.items number ≡ Some function.now }
    requires of_code { slice_get code.now.functions.items number ≡ Some own.now }
    requires functions { effects.now.effects.count ≡ length code.now.functions.items }
    requires assigned { effects.now.assigned.count ≡ length code.now.functions.items }
    requires globals { length code.now.program.now.globals ≤ width effects.now.assigned }
    requires exact { IsExact (whole_of code.now) effects.now }
    requires names { names.now ≡ names_of (scope_in code.now.program.now (view_function function.now)) own.now }
    requires some { 0 < length names.now }
    requires few { length names.now ≤ 64 }
    ensures facts { IfOk result (IsFacts (whole_of code.now) number) }
    ensures rows { IfOk result (λ its. AreRows (whole_of code.now) number (kept.Named its)) }
{
    let assigned = effects.assigned();
    let slots = slots_of(alloc, code.program, function, own, number, assigned)?;
    let callees = Assigning {
        assigned,
        functions: code.functions.len(),
        globals: code.program.globals.items().len(),
    };
    let its = Own {
        number,
        function,
        code: own,
        names,
        slots: &slots,
    };
    let WindowRows { plan, rows } = window_rows(
        alloc,
        code,
        its,
        &callees,
        (0, names.items().len()),
    )?;
    if !fits(plan) {
        return Err(NoMemory);
    }
    let ops = own.ops.items();
    let maker = Maker {
        program: code.program,
        names,
        slots: &slots,
        effects,
        functions: code.functions.len(),
    };
    let changes = changes_by(alloc, maker, ops)?;
    let lists = Lists {
        names: names.items(),
        slots: slots.items(),
    };
    let job = LockJob {
        plan,
        lists,
        changes: &changes,
        code: own,
        low: &rows,
    };
    let mut locks = solve_locks(alloc, job, &callees)?;
    clear_own(&mut locks, plan, ops.len());
    Ok(FunctionFacts {
        plan,
        ops: ops.len(),
        low: rows,
        locks,
        slots,
    })
}
