//! What is true at a marked place, as the analysis finds it.

ghost use Rattle.std.specs.Prelude.{◌≡◌, ◌≤◌, length};
ghost use Rattle.hs_effects.specs.Answers.{IsExact};
ghost use Rattle.hs_effects.specs.Calling.{whole_of};
ghost use Rattle.hs_rows.specs.Sets.{width};

use crate::programs::program_with;
use crate::refusal::Refusal;
use hs_code::{Code, Op, Placed};
use hs_effects::EffectTable;
use hs_lower::lower;
use hs_must::{Must, must};
use hs_restores::effects;
use hs_table_text::read;
use hs_tree::{Program, Variable};
use std::alloc::{AllocError, Global};
use std::fmt::Write;

/// The table: routines of each role on handles, and others.
const TABLE: &[u8] = b"version = 1
[routine]
DisposeHandle = { role = \"dispose_handle\" }
EmptyHandle = { role = \"empty\" }
HGetState = { role = \"get_state\" }
HLock = { role = \"lock\" }
HNoPurge = { role = \"no_purge\" }
HPurge = { role = \"purge\" }
HSetState = { role = \"set_state\" }
HUnlock = { role = \"unlock\" }
NewHandle = { role = \"new_handle\", moves = true, purges = true }
ReallocateHandle = { role = \"realloc\", moves = true, purges = true }
TENew = { role = \"plain\", moves = true, purges = true }
getchar = { role = \"getchar\" }
putchar = { role = \"putchar\" }
";

/// Appends a word and two numbers, if it is so.
fn push_pair(
    words: &mut String,
    is: bool,
    word: &str,
    one: u32,
    two: u32,
) -> Result<(), AllocError> {
    if !is {
        return Ok(());
    }
    write!(words, " {word} {one} {two}")
}

/// Appends a word and a number, if it is so.
fn push_one(words: &mut String, is: bool, word: &str, one: u32) -> Result<(), AllocError> {
    if !is {
        return Ok(());
    }
    write!(words, " {word} {one}")
}

/// Appends what is known of a name and of other things: names after it, places, and locals that have a byte of it.
fn push_others(words: &mut String, its: &Must, f: u32, at: u32, h: u32) -> Result<(), AllocError> {
    for other in 0..6 {
        push_pair(words, its.distinct(f, at, h, other), "apart", h, other)?;
        push_pair(words, its.with_lock(f, at, other, h), "held", other, h)?;
        push_pair(
            words,
            its.saved(f, at, Variable::Local(other), h),
            "saved",
            other,
            h,
        )?;
    }
    Ok(())
}

/// Appends what is known of the first six names before an operation.
fn push_facts(words: &mut String, its: &Must, f: u32, at: u32) -> Result<(), AllocError> {
    for h in 0..6 {
        push_one(words, its.locked(f, at, h), "locked", h)?;
        push_one(words, its.live(f, at, h), "live", h)?;
        push_others(words, its, f, at, h)?;
    }
    Ok(())
}

/// The first call of the first function, which marks a place.
fn mark_in(ops: &[Placed]) -> Option<u32> {
    for (at, its) in ops.iter().enumerate() {
        if matches!(its.op, Op::Call(0)) {
            return u32::try_from(at).ok();
        }
    }
    None
}

/// Appends a mark and what is known at the marked place of a function, if it has one.
fn push_at(words: &mut String, its: &Must, f: u32, at: Option<u32>) -> Result<(), AllocError> {
    match at {
        Some(at) => {
            words.push_str("|")?;
            push_facts(words, its, f, at)
        }
        None => Ok(()),
    }
}

/// Appends what is known at the marked places of the functions, a mark in front of each.
fn push_marked(words: &mut String, code: &Code, its: &Must) -> Result<(), AllocError> {
    for (f, own) in code.functions.iter().enumerate() {
        if let Ok(f) = u32::try_from(f) {
            push_at(words, its, f, mark_in(own.ops.items()))?;
        }
    }
    Ok(())
}

/// The same, from the effects of the functions.
fn of_table(alloc: Global, code: &Code, table: &EffectTable) -> Result<String, Refusal>
    requires functions { table.now.effects.count ≡ length code.now.functions.items }
    requires assigned { table.now.assigned.count ≡ length code.now.functions.items }
    requires globals { length code.now.program.now.globals ≤ width table.now.assigned }
    requires exact { IsExact (whole_of code.now) table.now }
{
    let its = must(alloc, code, table)?;
    let mut words = String::new(alloc);
    push_marked(&mut words, code, &its)?;
    Ok(words)
}

/// The same, of code.
fn of_code(alloc: Global, code: &Code) -> Result<String, Refusal> {
    let table = effects(alloc, code)?;
    of_table(alloc, code, &table)
}

/// The same, of a program.
fn of_program(alloc: Global, program: &Program) -> Result<String, Refusal> {
    match lower(alloc, program) {
        Ok(code) => of_code(alloc, &code),
        Err(end) => Err(end.into()),
    }
}

/// What is known at the marked places of the program that a text is.
pub(crate) fn answer(alloc: Global, text: &str) -> Result<String, Refusal> {
    let its = program_with(alloc, read(alloc, TABLE)?, text)?;
    of_program(alloc, &its)
}
