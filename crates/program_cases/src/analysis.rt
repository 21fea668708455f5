//! What functions may do, as the analysis finds it.

ghost use Rattle.std.specs.Prelude.{◌<◌, ◌≤◌, length};
ghost use Rattle.hs_rows.specs.Sets.{width};

use crate::programs::program;
use crate::refusal::Refusal;
use bitflags::Flags;
use hs_code::{Code, Effects};
use hs_effects::EffectTable;
use hs_lower::lower;
use hs_restores::effects;
use hs_tree::Program;
use std::alloc::{AllocError, Global};
use std::fmt::Write;

/// What a case asks of each function.
#[derive(Clone, Copy)]
pub(crate) enum Asked {
    /// Its effects.
    Effects,
    /// The globals that it may assign, by their numbers.
    Assigned,
    /// Its operations that are restores, by their numbers.
    Restores,
}

/// Appends a word for one thing of a function, if it is so.
fn push_if(words: &mut String, is: bool, word: &str) -> Result<(), AllocError> {
    if !is {
        return Ok(());
    }
    write!(words, " {word}")
}

/// Appends the number of one thing of a function, if it is so.
fn push_number(words: &mut String, is: bool, number: usize) -> Result<(), AllocError> {
    if !is {
        return Ok(());
    }
    write!(words, " {number}")
}

/// Appends the effects of a set.
fn push_set(words: &mut String, set: Effects) -> Result<(), AllocError> {
    push_if(words, set.contains(Effects::MOVES), "moves")?;
    push_if(words, set.contains(Effects::PURGES), "purges")?;
    push_if(words, set.contains(Effects::UNLOCKS), "unlocks")?;
    push_if(words, set.contains(Effects::MARKS), "marks")?;
    push_if(words, set.contains(Effects::BITS), "bits")?;
    push_if(words, set.contains(Effects::DISPOSES), "disposes")
}

/// Appends the numbers of the globals that a function may assign.
fn push_globals(
    words: &mut String,
    table: &EffectTable,
    f: u32,
    globals: u32,
) -> Result<(), AllocError>
    requires function_in_range { f < table.now.assigned.count }
    requires globals_in_range { globals ≤ width table.now.assigned }
{
    for global in 0..globals {
        push_number(words, table.assigns(f, global), global as usize)?;
    }
    Ok(())
}

/// Appends the numbers of the restores of a function.
fn push_restores(
    words: &mut String,
    table: &EffectTable,
    f: u32,
    ops: usize,
) -> Result<(), AllocError> {
    for at in 0..ops {
        if let Ok(number) = u32::try_from(at) {
            push_number(words, table.restores(f, number), at)?;
        }
    }
    Ok(())
}

/// Appends what is asked of a function, after its mark.
fn push_function(
    words: &mut String,
    code: &Code,
    table: &EffectTable,
    asked: Asked,
    f: u32,
) -> Result<(), AllocError>
    requires function_in_range { f < table.now.effects.count }
    requires assigned_in_range { f < table.now.assigned.count }
    requires globals_in_range { length code.now.program.now.globals ≤ width table.now.assigned }
{
    words.push_str("|")?;
    match asked {
        Asked::Effects => push_set(words, table.of(f)),
        Asked::Assigned => match u32::try_from(code.program.globals.items().len()) {
            Ok(globals) => push_globals(words, table, f, globals),
            Err(_) => Ok(()),
        },
        Asked::Restores => match code.functions.get(f as usize) {
            Some(own) => push_restores(words, table, f, own.ops.items().len()),
            None => Ok(()),
        },
    }
}

/// What is asked of each function of code.
fn of_code(alloc: Global, code: &Code, asked: Asked) -> Result<String, Refusal> {
    let table = effects(alloc, code)?;
    let mut words = String::new(alloc);
    for (f, _) in code.functions.iter().enumerate() {
        if let Ok(f) = u32::try_from(f) {
            push_function(&mut words, code, &table, asked, f)?;
        }
    }
    Ok(words)
}

/// What is asked of each function of a program.
fn of_program(alloc: Global, program: &Program, asked: Asked) -> Result<String, Refusal> {
    match lower(alloc, program) {
        Ok(code) => of_code(alloc, &code, asked),
        Err(end) => Err(end.into()),
    }
}

/// What is asked of each function of the program that a text is: a mark, and the words or numbers.
pub(crate) fn answer(alloc: Global, asked: Asked, text: &str) -> Result<String, Refusal> {
    let its = program(alloc, text)?;
    of_program(alloc, &its, asked)
}
