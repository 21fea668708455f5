//! The file name of an `#include` line (X3.159-1989 3.8.2).

ghost use Rattle.std.specs.Prelude.{◌≡◌, ◌-◌, IfOk, take, drop, length};
ghost use Rattle.std.specs.List.{list_all};
ghost use Rattle.hs_directives.specs.Includes.{bracketed, plain_name, is_printable, is_name, checked_name, include_name};
ghost use Rattle.hs_directives.specs.Conditions.{tokens_of};
ghost use Rattle.hs_directives.specs.Ahead.{seen_bytes, named_of};
ghost use Rattle.hs_directives.specs.Outcomes.{Gives};

use crate::condition::of_replacement;
use crate::error::ReadError;
use hs_base::Pos;
use hs_macros::{Budget, Macros};
use hs_tokens::{SourceToken, Token, TokenKind, is_mark, is_same_kind};
use std::alloc::{AllocError, Global};

/// The name of a file that is to be included, and what its line leaves of the budget.
#[derive(Drop)]
pub(crate) struct IncludeName {
    pub(crate) name: String,
    pub(crate) left: Budget,
}

/// The joined texts up to the first `>`, which ends the line.
fn bracketed(alloc: Global, tokens: &[Token]) -> Result<Option<Vec<u8>>, AllocError>
    ensures { IfOk result (λ name. seen_bytes name ≡ bracketed tokens.now) }
{
    let mut name = Vec::new(alloc);
    let mut rest = tokens;
    'tokens: while let Some((token, behind)) = rest.split_first() {
        if is_mark(b">", token) {
            return Ok(behind.is_empty().then_some(name));
        }
        name.extend_from_slice(token.text.items())?;
        rest = behind;
    }
    Ok(None)
}

/// The bytes between the quotes of a literal, without escapes.
fn quoted(alloc: Global, text: &[u8]) -> Result<Vec<u8>, AllocError>
    ensures { IfOk result (λ name. name.items ≡ take (length text.now - 2) (drop 1 text.now)) }
{
    match text {
        [_, content @ .., _] => content.to_vec(alloc),
        _ => Ok(Vec::new(alloc)),
    }
}

/// The name of a line of one of the two forms (X3.159-1989 3.8.2).
fn plain_name(alloc: Global, line: &[Token]) -> Result<Option<Vec<u8>>, AllocError>
    ensures { IfOk result (λ name. seen_bytes name ≡ plain_name line.now) }
{
    match line {
        [] => Ok(None),
        [token, rest @ ..] if is_mark(b"<", token) => bracketed(alloc, rest),
        [token] if is_same_kind(token.kind, TokenKind::Literal) => {
            Ok(Some(quoted(alloc, token.text.items())?))
        }
        _ => Ok(None),
    }
}

/// Whether all bytes are from 32 to 126.
fn are_printable(name: &[u8]) -> bool
    ensures { result ≡ list_all is_printable name.now }
{
    name.iter().all(|byte| *byte >= 32 && *byte <= 126)
}

/// Whether it is a name: bytes from 32 to 126, at least one.
fn is_name(name: &[u8]) -> bool
    ensures { result ≡ is_name name.now }
{
    !name.is_empty() && are_printable(name)
}

/// The name, if it is one.
#[tactic(auto, using(crate::proofs::Printable::utf8_from_name))]
fn checked_name(
    alloc: Global,
    pos: Pos,
    left: Budget,
    name: Option<Vec<u8>>,
) -> Result<IncludeName, ReadError>
    ensures { Gives named_of (checked_name pos left (seen_bytes name)) result }
{
    match name {
        Some(name) if is_name(&name) => Ok(IncludeName {
            name: String::from_utf8_lossy(alloc, &name)?,
            left,
        }),
        _ => Err(ReadError::BadDirective(pos)),
    }
}

/// The tokens without where they come from.
fn tokens_of(alloc: Global, sources: Vec<SourceToken>) -> Result<Vec<Token>, AllocError>
    ensures { IfOk result (λ tokens. tokens.items ≡ tokens_of sources.items) }
{
    let mut tokens = Vec::with_capacity(alloc, sources.len())?;
    'sources: for source in &sources {
        tokens.push(source.token.copied()?)?;
    }
    Ok(tokens)
}

/// The name of the line after `include`, of the directive whose `#` stands there. A line of neither form is replaced first
/// (X3.159-1989 3.8.2).
pub(crate) fn include_name(
    alloc: Global,
    macros: &Macros,
    left: Budget,
    pos: Pos,
    line: &[Token],
) -> Result<IncludeName, ReadError>
    ensures { Gives named_of (include_name macros.now left pos line.now) result }
{
    if let Some(name) = plain_name(alloc, line)? {
        return checked_name(alloc, pos, left, Some(name));
    }
    let mut left = left;
    match macros.expand(line, &mut left) {
        Ok(replaced) => {
            let tokens = tokens_of(alloc, replaced)?;
            checked_name(alloc, pos, left, plain_name(alloc, &tokens)?)
        }
        Err(error) => Err(of_replacement(error)),
    }
}
