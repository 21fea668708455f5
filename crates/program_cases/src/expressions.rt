//! Expressions, each after the same declarations: its type, its value if it is constant, and what it notes.

use crate::refusal::{Refusal, Why};
use crate::texts::tokens_of;
use crate::type_names::type_name;
use crate::world::furnished;
use hs_expr_parser::{TypeNames, expr};
use hs_expressions::{expression, value};
use hs_syntax::Expr;
use hs_tree::{Rvalue, Variable};
use hs_typer::{Taken, Typer, constant_of};
use hs_types::TypeId;
use std::alloc::{AllocError, Global};
use std::fmt::Write;

/// What a case asks of an expression.
#[derive(Clone, Copy)]
pub(crate) enum Asked {
    /// The type of its value.
    Type,
    /// Its value, as 32 bits.
    Constant,
    /// How many addresses it takes, strings it makes and routines it calls.
    Noted,
    /// The first address that it takes.
    Address,
    /// The first string that it makes.
    Text,
    /// The first routine that it calls.
    Routine,
    /// Whether it is a test against the null pointer, and for what.
    NullTest,
}

/// The value, if nothing is left of the text.
fn whole<T: Drop>(it: T, left: usize) -> Result<T, Refusal> {
    if left == 0 {
        Ok(it)
    } else {
        Err(Why::Unread.into())
    }
}

/// The expression that a text is.
fn parsed(alloc: Global, text: &str) -> Result<Expr, Refusal> {
    let tokens = tokens_of(alloc, text.as_bytes())?;
    let (e, end) = expr(alloc, &tokens, 0, &TypeNames::new(alloc))?;
    whole(e, tokens.len() - end)
}

/// The type of what an expression designates.
fn type_of(alloc: Global, typer: &mut Typer, e: &Expr) -> Result<TypeId, Refusal> {
    Ok(expression(alloc, typer, e)?.head().type_id)
}

/// The type of what a text designates.
pub(crate) fn designated_type(
    alloc: Global,
    typer: &mut Typer,
    text: &str,
) -> Result<TypeId, Refusal> {
    let e = parsed(alloc, text)?;
    type_of(alloc, typer, &e)
}

/// The value of an expression.
fn typed(alloc: Global, typer: &mut Typer, e: &Expr) -> Result<Box<Rvalue>, Refusal> {
    Ok(value(alloc, typer, e)?)
}

/// The value of the expression that a text is.
fn value_in(alloc: Global, typer: &mut Typer, text: &str) -> Result<Box<Rvalue>, Refusal> {
    let e = parsed(alloc, text)?;
    typed(alloc, typer, &e)
}

/// The value of a constant expression.
fn constant(alloc: Global, typer: &Typer, e: &Rvalue) -> Result<String, Refusal> {
    let its = constant_of(&typer.types, e)?;
    Ok(format!(in alloc; "{}", its.bits)?)
}

/// How many addresses, strings and calls of routines are noted.
fn noted(alloc: Global, typer: &Typer) -> Result<String, AllocError> {
    let addresses = typer.taken.items().len();
    let strings = typer.literals.items().len();
    let calls = typer.calls.items().len();
    format!(in alloc; "{addresses} {strings} {calls}")
}

/// The first address that is taken.
fn first_address(alloc: Global, its: &[Taken]) -> Result<String, AllocError> {
    match its.first() {
        Some(Taken::Variable(Variable::Global(place))) => format!(in alloc; "object {place}"),
        Some(Taken::Variable(_)) => format!(in alloc; "another variable"),
        Some(Taken::Field(it)) => format!(in alloc; "field {} of struct {}", it.place, it.of),
        None => format!(in alloc; "none"),
    }
}

/// Bytes as characters, and the byte 0 as `\0`.
fn spelled(alloc: Global, bytes: &[u8]) -> Result<String, AllocError> {
    let mut text = String::new(alloc);
    for byte in bytes {
        match *byte {
            0 => text.push_str("\\0")?,
            other => text.push(char::from(other))?,
        }
    }
    Ok(text)
}

/// The first string that is made.
fn first_string(alloc: Global, typer: &Typer) -> Result<String, AllocError> {
    match typer.literals.items().first() {
        Some(literal) => spelled(alloc, literal.items()),
        None => format!(in alloc; "none"),
    }
}

/// The first routine that is called, by its place in the table.
fn first_routine(alloc: Global, typer: &Typer) -> Result<String, AllocError> {
    match typer.calls.items().first() {
        Some(call) => format!(in alloc; "routine {}", call.routine),
        None => format!(in alloc; "none"),
    }
}

/// What a test against the null pointer is for.
fn null_test(e: &Rvalue) -> &'static str {
    match e {
        Rvalue::IsNil { equal: true, .. } => "equal",
        Rvalue::IsNil { .. } => "unequal",
        _ => "none",
    }
}

/// What is asked of a value.
fn answer_of(alloc: Global, typer: &Typer, asked: Asked, e: &Rvalue) -> Result<String, Refusal> {
    match asked {
        Asked::Type => type_name(alloc, &typer.types, e.head().type_id),
        Asked::Constant => constant(alloc, typer, e),
        Asked::Noted => Ok(noted(alloc, typer)?),
        Asked::Address => Ok(first_address(alloc, typer.taken.items())?),
        Asked::Text => Ok(first_string(alloc, typer)?),
        Asked::Routine => Ok(first_routine(alloc, typer)?),
        Asked::NullTest => Ok(String::from_str(alloc, null_test(e))?),
    }
}

/// What is asked of a text, with what is known.
fn answer_in(
    alloc: Global,
    typer: &mut Typer,
    asked: Asked,
    text: &str,
) -> Result<String, Refusal> {
    let e = value_in(alloc, typer, text)?;
    answer_of(alloc, typer, asked, &e)
}

/// What is asked of a text, after the declarations.
pub(crate) fn answer(alloc: Global, asked: Asked, text: &str) -> Result<String, Refusal> {
    let mut typer = furnished(alloc)?;
    answer_in(alloc, &mut typer, asked, text)
}
