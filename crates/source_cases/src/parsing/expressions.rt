//! Answers about the expression at the front of a text: how it is read, where it is, and how much is left after it.

ghost use Rattle.hs_syntax.specs.Nesting.{IsShallow};

use crate::parsing::shown::shown;
use crate::parsing::texts::said;
use hs_base::NoMemory;
use hs_expr_parser::{ParseEnd, TypeNames, expr};
use hs_syntax::{Expr, shallow};
use hs_tokens::SourceToken;
use std::alloc::Global;

/// What is asked of an expression.
#[derive(Clone, Copy)]
pub(crate) enum Asked {
    /// How its operators group, and how many tokens are left.
    Grouping,
    /// The columns of its position and of its first token.
    Columns,
    /// How many tokens are left after it.
    Left,
}

/// The answer about an expression, if so many tokens are left after it.
fn found(alloc: Global, e: &Expr, left: usize, asked: Asked) -> Result<String, NoMemory> {
    match asked {
        Asked::Grouping => {
            let shown = shown(alloc, e)?;
            Ok(format!(in alloc; "{shown}, {left} left")?)
        }
        Asked::Columns => {
            let position = e.position().pos.col;
            let first = e.first().pos.col;
            Ok(format!(in alloc; "at {position}, from {first}")?)
        }
        Asked::Left => Ok(format!(in alloc; "{left} left")?),
    }
}

/// The answer about tokens that begin with no expression.
fn missing(alloc: Global, left: usize, asked: Asked) -> Result<String, NoMemory> {
    match asked {
        Asked::Left => Ok(format!(in alloc; "{left} left")?),
        Asked::Grouping | Asked::Columns => Ok(format!(in alloc; "nothing, {left} left")?),
    }
}

/// The answer about the expression at the front of tokens, if these typedef names are known.
fn answer_with(
    alloc: Global,
    known: &TypeNames,
    tokens: &[SourceToken],
    asked: Asked,
) -> Result<String, NoMemory>
    requires { IsShallow tokens.now }
{
    match expr(alloc, tokens, 0, known) {
        Ok((e, end)) => found(alloc, &e, tokens.len() - end, asked),
        Err(ParseEnd::NotExpr) => missing(alloc, tokens.len(), asked),
        Err(ParseEnd::NoMemory) => Err(NoMemory),
    }
}

/// The answer about the expression at the front of tokens, if `T` is a typedef name.
pub(crate) fn answer(
    alloc: Global,
    tokens: &[SourceToken],
    asked: Asked,
) -> Result<String, NoMemory> {
    if !shallow(tokens) {
        return said(alloc, "too deep");
    }
    let known = TypeNames::new(alloc).with(alloc, b"T")?;
    answer_with(alloc, &known, tokens, asked)
}
