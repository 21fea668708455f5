//! Tokens: their kinds and places, and the texts that have none.

use crate::refusal::Refusal;
use hs_base::LimitKind;
use hs_cases::{between, bytes_of, option, push_bytes, without_options};
use hs_tokens::{ScanError, Token, TokenKind, scan};
use std::alloc::{AllocError, Global};

/// Room for the tokens of any text.
pub const AMPLE: usize = 4_194_304;

/// The tokens of a text, scanned as file 7, if there is room for so many.
pub fn scanned(alloc: Global, text: &str, room: usize) -> Result<Vec<Token>, Refusal> {
    let text = bytes_of(alloc, text)?;
    if text.len() > AMPLE {
        return Err(Refusal::Scan(ScanError::Limit(LimitKind::FileBytes.passed())));
    }
    Ok(scan(alloc, &text, 7, room)?)
}

/// The letter that stands for a kind.
fn letter(kind: TokenKind) -> char {
    match kind {
        TokenKind::Identifier => 'I',
        TokenKind::Number => 'N',
        TokenKind::Character => 'C',
        TokenKind::Literal => 'L',
        TokenKind::Punctuator => 'P',
    }
}

/// The tokens, each with its kind's letter in front, and a space between two.
fn spelled(alloc: Global, tokens: &[Token]) -> Result<String, AllocError> {
    let mut words = String::new(alloc);
    for token in tokens {
        words.push_str(between(words.as_str(), " "))?;
        words.push(letter(token.kind))?;
        push_bytes(&mut words, token.text.items())?;
    }
    Ok(words)
}

/// The places of the tokens, and which of them are first on their line, and which have white space before them.
fn places(alloc: Global, tokens: &[Token]) -> Result<String, AllocError> {
    let mut words = String::new(alloc);
    for token in tokens {
        let comma = between(words.as_str(), ", ");
        let first = if token.first { " first" } else { "" };
        let spaced = if token.spaced { " spaced" } else { "" };
        write!(
            words,
            "{comma}{}:{}:{}{first}{spaced}",
            token.pos.file, token.pos.line, token.pos.col
        )?;
    }
    Ok(words)
}

/// What tokens are in words of that kind.
fn described(alloc: Global, kind: &str, tokens: &[Token]) -> Result<String, AllocError> {
    match kind {
        "tokens" => spelled(alloc, tokens),
        "places" => places(alloc, tokens),
        "count" => format!(in alloc; "{}", tokens.len()),
        _ => "none".to_string(alloc),
    }
}

/// The room that the option `@room` of a text says.
fn room_of(text: &str) -> usize {
    option(text, "@room ").unwrap_or("").parse().unwrap_or(100)
}

/// What a text of that kind is answered by.
pub fn answer(alloc: Global, kind: &str, text: &str) -> Result<String, Refusal> {
    let lines = without_options(alloc, text)?;
    match scanned(alloc, lines.as_str(), room_of(text)) {
        Ok(tokens) => Ok(described(alloc, kind, &tokens)?),
        Err(_) if kind == "places" => Ok(String::new(alloc)),
        Err(refusal) => Err(refusal),
    }
}
