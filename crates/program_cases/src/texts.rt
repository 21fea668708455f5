//! Texts as tokens and as units, and values in boxes.

ghost use Rattle.std.specs.Prelude.{IfOk};
ghost use Rattle.hs_syntax.specs.Nesting.{IsShallow};

use crate::refusal::{Refusal, Why};
use hs_decl_parser::unit;
use hs_syntax::{Unit, shallow};
use hs_tokens::{Origin, SourceToken, Token, scan};
use std::alloc::Global;

/// The list with one item more. What is held is of a type that this function does not know, so its proof is short.
fn with_item<T: Drop>(list: Vec<T>, next: Result<T, Refusal>) -> Result<Vec<T>, Refusal> {
    let mut items = list;
    items.push(next?)?;
    Ok(items)
}

/// What is held, and what was made. What is held is of a type that this function does not know, so its proof is short.
pub(crate) fn with<T: Drop, U: Drop, E: Into<Refusal>>(
    held: T,
    made: Result<U, E>,
) -> Result<(T, U), Refusal> {
    match made {
        Ok(it) => Ok((held, it)),
        Err(why) => Err(why.into()),
    }
}

/// What was made, in a box: a function that holds a box pays little for the type of what is in it.
pub(crate) fn boxed<T: Drop, E: Into<Refusal>>(
    alloc: Global,
    made: Result<T, E>,
) -> Result<Box<T>, Refusal> {
    match made {
        Ok(it) => Ok(Box::new(alloc, it)?),
        Err(why) => Err(why.into()),
    }
}

/// Tokens that no macro made.
fn with_origins(alloc: Global, tokens: Vec<Token>) -> Result<Vec<SourceToken>, Refusal> {
    let mut sources = Vec::new(alloc);
    for token in tokens {
        sources.push(SourceToken {
            token,
            origin: Origin::Plain,
        })?;
    }
    Ok(sources)
}

/// The tokens of a text that are shallow.
pub(crate) fn tokens_of(alloc: Global, text: &[u8]) -> Result<Vec<SourceToken>, Refusal>
    ensures { IfOk result (λ tokens. IsShallow tokens.items) }
{
    if text.len() > 4_194_304 {
        return Err(Why::Unread.into());
    }
    let Ok(tokens) = scan(alloc, text, 0, text.len()) else {
        return Err(Why::Unread.into());
    };
    let sources = with_origins(alloc, tokens)?;
    if !shallow(&sources) {
        return Err(Why::Unread.into());
    }
    Ok(sources)
}

/// The unit that a text is.
fn unit_of(alloc: Global, text: &str) -> Result<Unit, Refusal> {
    let tokens = tokens_of(alloc, text.as_bytes())?;
    match unit(alloc, &tokens) {
        Ok(it) => Ok(it),
        Err(_) => Err(Why::Unread.into()),
    }
}

/// The units of a text, between two of which there is a line `@unit`.
pub(crate) fn units_of(alloc: Global, text: &str) -> Result<Vec<Unit>, Refusal> {
    let mut units = Vec::new(alloc);
    for part in text.split("\n@unit\n") {
        units = with_item(units, unit_of(alloc, part))?;
    }
    Ok(units)
}
