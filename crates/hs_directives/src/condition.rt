//! Conditions: `defined` is answered, then macros are replaced, then the value is computed (X3.159-1989 3.8.1).

ghost use Rattle.std.specs.Prelude.{◌≡◌, IfOk, is_some};
ghost use Rattle.std.specs.FinMap as map;
ghost use Rattle.hs_directives.specs.States.{of_replacement};
ghost use Rattle.hs_directives.specs.Conditions.{asks, operand_of, answer, resolved, condition_of};
ghost use Rattle.hs_directives.specs.Ahead.{seen_operand, seen_tokens};
ghost use Rattle.hs_directives.specs.Outcomes.{Gives, ReadsNone};

use crate::error::{MacroKind, ReadError};
use hs_base::Pos;
use hs_constants::condition_value;
use hs_macros::{Budget, MacroError, Macros};
use hs_tokens::{Text, Token, TokenKind, is_identifier, is_mark};
use std::alloc::{AllocError, Global};

/// The name that `defined` asks for, and how many tokens it takes with its parentheses.
#[derive(Clone, Copy)]
pub(crate) struct Asked<'a> {
    pub(crate) name: &'a [u8],
    pub(crate) len: usize,
}

/// What a condition answers, and what it leaves of the budget.
#[derive(Clone, Copy)]
pub(crate) struct Answered {
    pub(crate) holds: bool,
    pub(crate) left: Budget,
}

/// A refusal of a replacement, which never is that of a definition.
pub(crate) fn of_replacement(error: MacroError) -> ReadError
    ensures error { result ≡ of_replacement error }
    ensures reads_none { ReadsNone result }
{
    match error {
        MacroError::ArgCount(pos) => ReadError::Macro(MacroKind::ArgCount, pos),
        MacroError::Limit(limit) => ReadError::Limit(limit),
        MacroError::BadMacro | MacroError::NoMemory => ReadError::NoMemory,
    }
}

/// Whether the token is the word `defined`.
fn asks(token: &Token) -> bool
    ensures { result ≡ asks token.now }
{
    is_identifier(token) && token.text.items() == b"defined".as_slice()
}

/// The name after `defined`, in parentheses or not (X3.159-1989 3.8.1).
fn operand_of(tokens: &[Token]) -> Option<Asked<'_>>
    ensures { seen_operand result ≡ operand_of tokens.now }
{
    match tokens {
        [name, ..] if is_identifier(name) => Some(Asked {
            name: name.text.items(),
            len: 1,
        }),
        [open, name, close, ..]
            if is_mark(b"(", open) && is_identifier(name) && is_mark(b")", close) => {
            Some(Asked {
                name: name.text.items(),
                len: 3,
            })
        }
        _ => None,
    }
}

/// 1 or 0 instead of `defined`.
fn answer(alloc: Global, token: &Token, holds: bool) -> Result<Token, AllocError>
    ensures { IfOk result (λ copy. copy ≡ answer token.now holds) }
{
    let text = if holds { b"1" } else { b"0" };
    Ok(Token {
        kind: TokenKind::Number,
        text: Text::from_vec(alloc, text.as_slice().to_vec(alloc)?)?,
        pos: token.pos,
        first: token.first,
        spaced: token.spaced,
    })
}

/// The tokens without `defined`, or nothing if one has no name (X3.159-1989 3.8.1).
fn resolved(
    alloc: Global,
    macros: &Macros,
    line: &[Token],
) -> Result<Option<Vec<Token>>, AllocError>
    ensures { IfOk result (λ tokens. seen_tokens tokens ≡ resolved macros.now line.now) }
{
    let mut tokens = Vec::new(alloc);
    let mut rest = line;
    'tokens: while let Some((token, behind)) = rest.split_first() {
        if asks(token) {
            let Some(asked) = operand_of(behind) else {
                return Ok(None);
            };
            tokens.push(answer(alloc, token, macros.is_defined(asked.name))?)?;
            rest = behind.split_at(asked.len).1;
        } else {
            tokens.push(token.copied()?)?;
            rest = behind;
        }
    }
    Ok(Some(tokens))
}

/// Whether the condition holds, of the directive whose `#` stands there (X3.159-1989 3.8.1).
pub(crate) fn condition_of(
    alloc: Global,
    macros: &Macros,
    left: Budget,
    pos: Pos,
    line: &[Token],
) -> Result<Answered, ReadError>
    ensures { Gives (λ answered. answered) (condition_of macros.now left pos line.now) result }
{
    let Some(tokens) = resolved(alloc, macros, line)? else {
        return Err(ReadError::BadCondition(pos));
    };
    let mut left = left;
    let replaced = match macros.expand(&tokens, &mut left) {
        Ok(replaced) => replaced,
        Err(error) => return Err(of_replacement(error)),
    };
    match condition_value(alloc, &replaced)? {
        Some(value) if !value.fails => Ok(Answered {
            holds: value.bits != 0,
            left,
        }),
        _ => Err(ReadError::BadCondition(pos)),
    }
}
