//! Answers about what is spelled of a unit: the texts of its tokens, and the places that the tree keeps of them.

use crate::parsing::texts::append_word;
use hs_base::NoMemory;
use hs_spell::spell;
use hs_syntax::Unit;
use hs_tokens::{SourceToken, Token};
use std::alloc::Global;
use std::str;

/// What is asked of the tokens that are spelled of a unit.
#[derive(Clone, Copy)]
pub(crate) enum Spelled {
    /// How many external declarations the unit has, and whether the tokens have the texts of those that were read.
    Again,
    /// Their texts.
    Texts,
    /// Their lines: 0 for a token whose place the tree does not keep.
    Lines,
    /// How many there are.
    Count,
}

/// Whether the texts of these tokens are the same.
fn have_same_texts(spelled: &[Token], tokens: &[SourceToken]) -> bool {
    if spelled.len() != tokens.len() {
        return false;
    }
    for (one, other) in spelled.iter().zip(tokens.iter()) {
        if one.text.items() != other.token.text.items() {
            return false;
        }
    }
    true
}

/// The texts of tokens.
fn texts(alloc: Global, tokens: &[Token]) -> Result<String, NoMemory> {
    let mut texts = String::new(alloc);
    for token in tokens {
        append_word(
            &mut texts,
            str::from_utf8(token.text.items()).unwrap_or("?"),
        )?;
    }
    Ok(texts)
}

/// The lines of tokens.
fn lines(alloc: Global, tokens: &[Token]) -> Result<String, NoMemory> {
    let mut lines = String::new(alloc);
    for token in tokens {
        append_word(&mut lines, token.pos.line)?;
    }
    Ok(lines)
}

/// The answer about the tokens that are spelled of a unit, which was read from these tokens.
pub(crate) fn spelled_answer(
    alloc: Global,
    it: &Unit,
    tokens: &[SourceToken],
    asked: Spelled,
) -> Result<String, NoMemory> {
    let spelled = spell(alloc, it)?;
    match asked {
        Spelled::Again => {
            let how = if have_same_texts(&spelled, tokens) {
                "as read"
            } else {
                "otherwise"
            };
            Ok(format!(in alloc; "{} externals, spelled {how}", it.externals.len())?)
        }
        Spelled::Texts => texts(alloc, &spelled),
        Spelled::Lines => lines(alloc, &spelled),
        Spelled::Count => Ok(format!(in alloc; "{}", spelled.len())?),
    }
}
