//! The parts of a `#define` line (X3.159-1989 3.8.3).

ghost use Rattle.std.specs.Prelude.{◌≡◌, IfOk};
ghost use Rattle.std.specs.List.{list_any};
ghost use Rattle.hs_macros.specs.Definitions.{is_distinct, names_from, parameters_from, is_operator, with_body, with_definition, definition_from, definition_of};
ghost use Rattle.hs_base.specs.Options.{Seen};
ghost use Rattle.hs_macros.specs.Lines.{names_of, form_of, parameters_of, named};

use hs_tokens::{Token, is_identifier, is_mark};
use std::alloc::{AllocError, Global};
use std::collections::HashSet;

/// The parts of a definition (X3.159-1989 3.8.3), lent by its tokens: nothing of them is copied. Each function below is the
/// definition of its name in `specs/Definitions.antt`.
#[derive(Drop)]
pub(crate) struct Line<'a> {
    /// The name that is defined.
    pub(crate) name: &'a [u8],
    /// The parameters of a function-like macro, in order; nothing for an object-like one.
    pub(crate) parameters: Option<Vec<&'a [u8]>>,
    /// The tokens that replace the name.
    pub(crate) body: &'a [Token],
}

/// Parameters, and the tokens after their closing parenthesis.
#[derive(Drop)]
struct Parameters<'a> {
    names: Vec<&'a [u8]>,
    behind: &'a [Token],
}

/// Whether no name stands twice.
fn is_distinct(alloc: Global, names: &[&[u8]]) -> Result<bool, AllocError>
    ensures { IfOk result (λ answer. answer ≡ is_distinct (names_of names.now)) }
{
    let mut seen = HashSet::new(alloc);
    'names: for name in names {
        if !seen.insert(*name)? {
            return Ok(false);
        }
    }
    Ok(true)
}

/// One or more identifiers with commas between them, up to the closing parenthesis.
fn names_from<'a>(alloc: Global, line: &'a [Token]) -> Result<Option<Parameters<'a>>, AllocError>
    ensures { IfOk result (λ read. Seen parameters_of read (names_from line.now)) }
{
    let mut names = Vec::new(alloc);
    let mut rest = line;
    'names: while let [name, next, behind @ ..] = rest {
        if !is_identifier(name) {
            return Ok(None);
        }
        names.push(name.text.items())?;
        if is_mark(b")", next) {
            return Ok(Some(Parameters { names, behind }));
        }
        if !is_mark(b",", next) {
            return Ok(None);
        }
        rest = behind;
    }
    Ok(None)
}

/// None or more distinct identifiers with commas between them, and the closing parenthesis.
fn parameters_from<'a>(
    alloc: Global,
    line: &'a [Token],
) -> Result<Option<Parameters<'a>>, AllocError>
    ensures { IfOk result (λ read. Seen parameters_of read (parameters_from line.now)) }
{
    match line {
        [token, behind @ ..] if is_mark(b")", token) => Ok(Some(Parameters {
            names: Vec::new(alloc),
            behind,
        })),
        _ => {
            let Some(parameters) = names_from(alloc, line)? else {
                return Ok(None);
            };
            if is_distinct(alloc, &parameters.names)? {
                Ok(Some(parameters))
            } else {
                Ok(None)
            }
        }
    }
}

/// Whether the token is an operator that is left out.
fn is_operator(token: &Token) -> bool
    ensures { result ≡ is_operator token.now }
{
    is_mark(b"#", token) || is_mark(b"##", token)
}

/// Whether one of the tokens is an operator.
fn has_operator(body: &[Token]) -> bool
    ensures { result ≡ list_any is_operator body.now }
{
    body.iter().any(is_operator)
}

/// The definition of these parts, if its tokens have no operator.
fn with_body<'a>(
    name: &'a [u8],
    parameters: Option<Vec<&'a [u8]>>,
    body: &'a [Token],
) -> Option<Line<'a>>
    ensures { Seen named result
        (with_definition name.now (with_body (form_of parameters.entry) body.now)) }
{
    if has_operator(body) {
        return None;
    }
    Some(Line {
        name,
        parameters,
        body,
    })
}

/// What follows the name. A parenthesis directly after it opens parameters.
fn definition_from<'a>(
    alloc: Global,
    name: &'a [u8],
    line: &'a [Token],
) -> Result<Option<Line<'a>>, AllocError>
    ensures { IfOk result (λ read. Seen named read
        (with_definition name.now (definition_from line.now))) }
{
    match line {
        [token, rest @ ..] if is_mark(b"(", token) && !token.spaced => {
            let Some(parameters) = parameters_from(alloc, rest)? else {
                return Ok(None);
            };
            Ok(with_body(name, Some(parameters.names), parameters.behind))
        }
        _ => Ok(with_body(name, None, line)),
    }
}

/// Reads the tokens after `define`. `None` if they are no definition. `defined` is no macro's name (3.8.8).
pub(crate) fn definition_of<'a>(
    alloc: Global,
    line: &'a [Token],
) -> Result<Option<Line<'a>>, AllocError>
    ensures { IfOk result (λ read. Seen named read (definition_of line.now)) }
{
    match line {
        [name, rest @ ..] if is_identifier(name) && name.text.items() != b"defined".as_slice() => {
            definition_from(alloc, name.text.items(), rest)
        }
        _ => Ok(None),
    }
}
