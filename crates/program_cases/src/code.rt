//! The code of a program: its operations and cases in words, what can follow each operation, and how many there are.

use crate::programs::program;
use crate::refusal::{Refusal, Why};
use hs_cases::bytes_of;
use hs_code::{Case, Code, FunctionCode, Placed, Successors, succ};
use hs_lower::lower;
use hs_tree::Program;
use std::alloc::{AllocError, Global};
use std::fmt::Write;

/// Appends what is between two things, if there is something.
fn separate(words: &mut String) -> Result<(), AllocError> {
    if words.is_empty() {
        return Ok(());
    }
    words.push_str(" / ")
}

/// Appends an operation: its piece of the text, how many values are on the stack before it, and what it is.
fn push_operation(words: &mut String, its: &Placed) -> Result<(), AllocError> {
    separate(words)?;
    write!(words, "{} {} {:?}", its.piece, its.places, its.op)
}

/// Appends a case: its number, and its operation.
fn push_case(words: &mut String, its: &Case) -> Result<(), AllocError> {
    separate(words)?;
    write!(words, "case {} {}", its.bits, its.target)
}

/// The operations of a function, and then its cases.
fn operations(alloc: Global, code: &FunctionCode) -> Result<String, AllocError> {
    let mut words = String::new(alloc);
    for its in code.ops.items() {
        push_operation(&mut words, its)?;
    }
    for its in code.cases.items() {
        push_case(&mut words, its)?;
    }
    Ok(words)
}

/// Appends the operations that can follow one: the next one, a jump after `>`, and the places of its cases after `case`; or `none`.
fn push_successors(words: &mut String, its: Successors) -> Result<(), AllocError> {
    separate(words)?;
    if let Some(next) = its.next {
        write!(words, "{next}")?;
    }
    if let Some(jump) = its.jump {
        write!(words, ">{jump}")?;
    }
    let (first, end) = its.cases;
    if first < end {
        write!(words, " case {first} to {end}")?;
    }
    if its.next.is_none() && its.jump.is_none() {
        words.push_str("none")?;
    }
    Ok(())
}

/// Of each operation of a function, those that can follow it.
fn successors(alloc: Global, code: &FunctionCode) -> Result<String, AllocError> {
    let mut words = String::new(alloc);
    for (at, _) in code.ops.items().iter().enumerate() {
        if let Ok(at) = u32::try_from(at) {
            push_successors(&mut words, succ(code, at))?;
        }
    }
    Ok(words)
}

/// How many operations these functions have.
fn operations_in(functions: &[FunctionCode]) -> usize {
    let mut count: usize = 0;
    for its in functions {
        count = count.saturating_add(its.ops.items().len());
    }
    count
}

/// What a case asks of code.
#[derive(Clone, Copy)]
enum Asked {
    /// The operations and the cases of the first function.
    Operations,
    /// Which operations can follow each of them.
    Successors,
    /// How many operations all functions have.
    Count,
}

/// What is asked of the first function.
fn of_first(alloc: Global, code: &Code, asked: Asked) -> Result<String, Refusal> {
    let Some(first) = code.functions.first() else {
        return Err(Why::Unread.into());
    };
    Ok(match asked {
        Asked::Operations => operations(alloc, first)?,
        Asked::Successors => successors(alloc, first)?,
        Asked::Count => format!(in alloc; "{}", operations_in(&code.functions))?,
    })
}

/// What is asked of the code of a program.
fn of_program(alloc: Global, program: &Program, asked: Asked) -> Result<String, Refusal> {
    match lower(alloc, program) {
        Ok(code) => of_first(alloc, &code, asked),
        Err(end) => Err(end.into()),
    }
}

/// What is asked of the code of the program that a text is. In the text `<30*x>` is `x` thirty times.
fn answer(alloc: Global, text: &str, asked: Asked) -> Result<String, Refusal> {
    let bytes = bytes_of(alloc, text)?;
    let text = String::from_utf8_lossy(alloc, &bytes)?;
    let its = program(alloc, text.as_str())?;
    of_program(alloc, &its, asked)
}

/// The code of the first function of a text.
pub(crate) fn spelled(alloc: Global, text: &str) -> Result<String, Refusal> {
    answer(alloc, text, Asked::Operations)
}

/// What can follow each operation of it.
pub(crate) fn flow(alloc: Global, text: &str) -> Result<String, Refusal> {
    answer(alloc, text, Asked::Successors)
}

/// How many operations a text has.
pub(crate) fn count(alloc: Global, text: &str) -> Result<String, Refusal> {
    answer(alloc, text, Asked::Count)
}
