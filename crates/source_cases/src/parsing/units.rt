//! Answers about the unit that a text is: whether it is one, and what its tree keeps.

use crate::parsing::spelling::{Spelled, spelled_answer};
use crate::parsing::texts::{append_word, said};
use hs_base::NoMemory;
use hs_decl_parser::{ParseError, unit};
use hs_syntax::{External, Stmt, Unit, first_of_specifiers};
use hs_tokens::SourceToken;
use std::alloc::Global;

/// What is asked of a unit.
#[derive(Clone, Copy)]
pub(crate) enum Asked {
    /// Whether it is one.
    Verdict,
    /// To which `if` the `else` belongs in the first statement of its last function.
    Else,
    /// The columns of the statements of its last function.
    Statements,
    /// The column of the first specifier of its first declaration or function.
    Specifiers,
    /// What is spelled of it.
    Spelled(Spelled),
}

/// Whether the first statement of the unit's last function is an `if` without an `else`, around one with it.
fn dangles(it: &Unit) -> bool {
    let Some(External::Function { body, .. }) = it.externals.last() else {
        return false;
    };
    match body.statements.first() {
        Some(labelled) => match &labelled.statement {
            Stmt::If { then, .. } => matches!(&**then, Stmt::IfElse { .. }),
            _ => false,
        },
        None => false,
    }
}

/// The words for the `if` of an `else`.
fn nearest(is_inner: bool) -> &'static str {
    if is_inner {
        "the inner one"
    } else {
        "another one"
    }
}

/// The columns of the first tokens of the statements in a unit's last function.
fn statement_columns(alloc: Global, it: &Unit) -> Result<String, NoMemory> {
    let mut columns = String::new(alloc);
    if let Some(External::Function { body, .. }) = it.externals.last() {
        for labelled in &body.statements {
            append_word(&mut columns, labelled.statement.first().pos.col)?;
        }
    }
    Ok(columns)
}

/// The column of the first specifier of a unit's first declaration or function, if it has one.
fn specifier_column(it: &Unit) -> Option<u32> {
    let place = match it.externals.first() {
        Some(External::Function { specifiers, .. }) => first_of_specifiers(specifiers),
        Some(External::Declaration(it)) => first_of_specifiers(&it.specifiers),
        None => None,
    };
    Some(place?.pos.col)
}

/// The answer about the column of a specifier.
fn column_answer(alloc: Global, column: Option<u32>) -> Result<String, NoMemory> {
    match column {
        Some(column) => Ok(format!(in alloc; "from {column}")?),
        None => said(alloc, "none"),
    }
}

/// The answer about a unit of these tokens.
fn found(
    alloc: Global,
    it: &Unit,
    tokens: &[SourceToken],
    asked: Asked,
) -> Result<String, NoMemory> {
    match asked {
        Asked::Verdict => said(alloc, "unit"),
        Asked::Else => said(alloc, nearest(dangles(it))),
        Asked::Statements => statement_columns(alloc, it),
        Asked::Specifiers => column_answer(alloc, specifier_column(it)),
        Asked::Spelled(spelled) => spelled_answer(alloc, it, tokens, spelled),
    }
}

/// The answer about tokens that are no unit.
fn refused(alloc: Global, error: ParseError) -> Result<String, NoMemory> {
    match error {
        ParseError::Syntax(pos) => Ok(format!(in alloc; "refused at {}:{}", pos.line, pos.col)?),
        ParseError::Limit(limit) => {
            Ok(format!(in alloc; "past {} {}", limit.kind.word(), limit.reached)?)
        }
        ParseError::NoMemory => Err(NoMemory),
    }
}

/// The answer about the unit that tokens are, or the place where they are refused.
pub(crate) fn answer(
    alloc: Global,
    tokens: &[SourceToken],
    asked: Asked,
) -> Result<String, NoMemory> {
    match unit(alloc, tokens) {
        Ok(it) => found(alloc, &it, tokens, asked),
        Err(error) => refused(alloc, error),
    }
}
