//! Whole programs: what they are made of.

use crate::refusal::Refusal;
use crate::texts::{boxed, units_of, with};
use hs_syntax::Unit;
use hs_table::{Table, built_in};
use hs_tree::{BoundRoutine, Global as Object, Program};
use hs_types::FieldId;
use hs_typing::program_of;
use std::alloc::{AllocError, Global};
use std::fmt::Write;

/// The program that these units are with a table.
fn program_in(alloc: Global, table: Table, units: &[Unit]) -> Result<Box<Program>, Refusal> {
    boxed(alloc, program_of(alloc, table, units))
}

/// The program that a text is with a table.
pub(crate) fn program_with(
    alloc: Global,
    table: Table,
    text: &str,
) -> Result<Box<Program>, Refusal> {
    let (table, units) = with(table, units_of(alloc, text))?;
    program_in(alloc, table, &units)
}

/// The program that a text is.
pub(crate) fn program(alloc: Global, text: &str) -> Result<Box<Program>, Refusal> {
    program_with(alloc, built_in(alloc)?, text)
}

/// How many functions the program has, and the number of its `main`.
pub(crate) fn main_of(alloc: Global, text: &str) -> Result<String, Refusal> {
    let it = program(alloc, text)?;
    let count = it.functions.len();
    Ok(format!(in alloc; "{count} {}", it.main)?)
}

/// Whether the text is a program.
pub(crate) fn is_one(alloc: Global, text: &str) -> Result<String, Refusal> {
    let _ = program(alloc, text)?;
    Ok(String::from_str(alloc, "a program")?)
}

/// The sizes of objects, and how many are marked.
fn sizes_text(alloc: Global, its: &[Object]) -> Result<String, AllocError> {
    let mut text = String::from_str(alloc, "sizes")?;
    let mut marks = 0u32;
    for it in its {
        write!(text, " {}", it.size)?;
        marks = marks.saturating_add(u32::from(it.variable.taken));
    }
    write!(text, ", taken {marks}")?;
    Ok(text)
}

/// The sizes of the objects of a program, and of how many the address is taken.
pub(crate) fn sizes(alloc: Global, text: &str) -> Result<String, Refusal> {
    let it = program(alloc, text)?;
    Ok(sizes_text(alloc, it.globals.items())?)
}

/// Whether the program takes the addresses of the first and the second field of its first struct.
pub(crate) fn fields(alloc: Global, text: &str) -> Result<String, Refusal> {
    let it = program(alloc, text)?;
    let first = it.taken.has(FieldId { of: 0, place: 0 });
    let second = it.taken.has(FieldId { of: 0, place: 1 });
    Ok(format!(in alloc; "{first} {second}")?)
}

/// What stands for the first three structs of a program, and whether the address of the second field of the second one is taken.
pub(crate) fn structs(alloc: Global, text: &str) -> Result<String, Refusal> {
    let it = program(alloc, text)?;
    let same = &it.same;
    let (first, second, third) = (same.struct_for(0), same.struct_for(1), same.struct_for(2));
    let taken = it.taken.has(same.field_for(FieldId { of: 1, place: 1 }));
    Ok(format!(in alloc; "{first} {second} {third}, {taken}")?)
}

/// How many parameters the routine is declared with, if it is called.
fn parameters_of(it: &BoundRoutine) -> Option<usize> {
    match &it.prototype {
        Some(its) => Some(its.parameters.items().len()),
        None => None,
    }
}

/// How many of the routines are called, and how many parameters they have.
fn routines_text(alloc: Global, its: &[BoundRoutine]) -> Result<String, AllocError> {
    let mut routines = 0usize;
    let mut parameters = 0usize;
    for it in its {
        if let Some(count) = parameters_of(it) {
            routines = routines.saturating_add(1);
            parameters = parameters.saturating_add(count);
        }
    }
    format!(in alloc; "{routines} {parameters}")
}

/// How many routines a program calls, and how many parameters they have.
pub(crate) fn routines(alloc: Global, text: &str) -> Result<String, Refusal> {
    let it = program(alloc, text)?;
    Ok(routines_text(alloc, it.routines.items())?)
}
