//! Hazards, as the analysis finds them.

ghost use Rattle.std.specs.Prelude.{◌≡◌, ◌≤◌, ℕ, length};
ghost use Rattle.hs_effects.specs.Answers as effects_right;
ghost use Rattle.hs_effects.specs.Calling.{whole_of};
ghost use Rattle.hs_must.specs.Answers as must_right;
ghost use Rattle.hs_must.specs.Answers.{HasMany};
ghost use Rattle.hs_rows.specs.Sets.{width};

use crate::programs::program;
use crate::refusal::Refusal;
use hs_code::Code;
use hs_effects::EffectTable;
use hs_lower::lower;
use hs_must::{Must, must};
use hs_restores::effects;
use hs_taint::{Hazard, HazardKind, hazards, solve};
use hs_tree::Program;
use std::alloc::{AllocError, Global};
use std::fmt::Write;

/// Appends a hazard: what is used, and the column of the operation that uses it.
fn push_hazard(words: &mut String, its: &Hazard) -> Result<(), AllocError> {
    let kind = match its.kind {
        HazardKind::Moved => "moved",
        HazardKind::Purged => "purged",
    };
    if !words.is_empty() {
        words.push_str(" ")?;
    }
    write!(words, "{kind} {}", its.pos.col)
}

/// Hazards in words, or `none`.
fn words_of(alloc: Global, its: &[Hazard]) -> Result<String, AllocError> {
    let mut words = String::new(alloc);
    for hazard in its {
        push_hazard(&mut words, hazard)?;
    }
    if words.is_empty() {
        words.push_str("none")?;
    }
    Ok(words)
}

/// The hazards of code, from its tables.
fn of_tables(alloc: Global, code: &Code, table: &EffectTable, its: &Must) -> Result<String, Refusal>
    requires functions { table.now.effects.count ≡ length code.now.functions.items }
    requires assigned { table.now.assigned.count ≡ length code.now.functions.items }
    requires globals { length code.now.program.now.globals ≤ width table.now.assigned }
    requires effects { effects_right.IsExact (whole_of code.now) table.now }
    requires must { must_right.IsExact (whole_of code.now) its.now }
    requires few { (f : ℕ) → HasMany (whole_of code.now) f → ⊥ }
{
    let reached = solve(alloc, code, table, its)?;
    let found = hazards(alloc, code, &reached)?;
    Ok(words_of(alloc, &found)?)
}

/// The same, from the effects of the functions.
fn of_table(alloc: Global, code: &Code, table: &EffectTable) -> Result<String, Refusal>
    requires functions { table.now.effects.count ≡ length code.now.functions.items }
    requires assigned { table.now.assigned.count ≡ length code.now.functions.items }
    requires globals { length code.now.program.now.globals ≤ width table.now.assigned }
    requires exact { effects_right.IsExact (whole_of code.now) table.now }
{
    let its = must(alloc, code, table)?;
    of_tables(alloc, code, table, &its)
}

/// The same, of code.
fn of_code(alloc: Global, code: &Code) -> Result<String, Refusal> {
    let table = effects(alloc, code)?;
    of_table(alloc, code, &table)
}

/// The same, of a program.
fn of_program(alloc: Global, program: &Program) -> Result<String, Refusal> {
    match lower(alloc, program) {
        Ok(code) => of_code(alloc, &code),
        Err(end) => Err(end.into()),
    }
}

/// The hazards of the program that a text is, in their order.
pub(crate) fn answer(alloc: Global, text: &str) -> Result<String, Refusal> {
    let its = program(alloc, text)?;
    of_program(alloc, &its)
}
