//! Constants and conditions: their values, and those that are refused.

use crate::refusal::Refusal;
use crate::tokens::{AMPLE, scanned};
use hs_cases::{bytes_of, push_bytes};
use hs_constants::{
    Value, character_value, condition_value, has_string_value, number_value, string_value,
};
use hs_tokens::{Origin, SourceToken, Token};
use std::alloc::{AllocError, Global};

/// Tokens that no macro made.
fn with_origins(alloc: Global, tokens: Vec<Token>) -> Result<Vec<SourceToken>, AllocError> {
    let mut sources = Vec::new(alloc);
    for token in tokens {
        sources.push(SourceToken {
            token,
            origin: Origin::Plain,
        })?;
    }
    Ok(sources)
}

/// The value of the condition that a text is, if it is one.
fn value_of(alloc: Global, text: &str) -> Result<Option<Value>, Refusal> {
    let tokens = with_origins(alloc, scanned(alloc, text, AMPLE)?)?;
    Ok(condition_value(alloc, &tokens)?)
}

/// A value in words: whether it divides by 0 or is unsigned, if the kind asks for that alone.
fn described(alloc: Global, kind: &str, value: Value) -> Result<String, AllocError> {
    let Value {
        bits,
        unsigned,
        fails,
    } = value;
    let sign = if unsigned { "unsigned" } else { "signed" };
    match kind {
        "sign" => sign.to_string(alloc),
        "division" if fails => "by 0".to_string(alloc),
        "division" => "no".to_string(alloc),
        _ if fails => format!(in alloc; "{bits} {sign}, divides by 0"),
        _ => format!(in alloc; "{bits} {sign}"),
    }
}

/// The value of the condition that a text is, in words of that kind.
pub fn condition(alloc: Global, kind: &str, text: &str) -> Result<String, Refusal> {
    match value_of(alloc, text)? {
        Some(value) => Ok(described(alloc, kind, value)?),
        None => Ok("none".to_string(alloc)?),
    }
}

/// The value of an integer constant, its base, and the types that its suffix names.
fn number(alloc: Global, text: &[u8]) -> Result<String, AllocError> {
    let Some(number) = number_value(text) else {
        return "none".to_string(alloc);
    };
    let decimal = if number.decimal { " decimal" } else { "" };
    let unsigned = if number.unsigned { " unsigned" } else { "" };
    let long = if number.long { " long" } else { "" };
    format!(in alloc; "{}{decimal}{unsigned}{long}", number.value)
}

/// The value of a character constant.
fn character(alloc: Global, text: &[u8]) -> Result<String, AllocError> {
    match character_value(text) {
        Some(bits) => format!(in alloc; "{bits}"),
        None => "none".to_string(alloc),
    }
}

/// The bytes of a string literal; or how many they are, and the first four, if the kind asks for that.
fn string(alloc: Global, kind: &str, bytes: &[u8]) -> Result<String, AllocError> {
    let mut words = String::new(alloc);
    if kind == "string" {
        push_bytes(&mut words, bytes)?;
        return Ok(words);
    }
    write!(words, "{}: ", bytes.len())?;
    push_bytes(&mut words, bytes.get(..4).unwrap_or(bytes))?;
    Ok(words)
}

/// The value of a string literal, and whether it is said to have one.
fn literal(alloc: Global, kind: &str, text: &[u8]) -> Result<String, Refusal> {
    let words = match string_value(alloc, text)? {
        Some(bytes) => string(alloc, kind, bytes.items())?,
        None => "none".to_string(alloc)?,
    };
    Ok(format!(in alloc; "{words}; {}", has_string_value(text))?)
}

/// The value of the constant of that kind that a text is.
pub fn constant(alloc: Global, kind: &str, text: &str) -> Result<String, Refusal> {
    let text = bytes_of(alloc, text)?;
    match kind {
        "number" => Ok(number(alloc, &text)?),
        "character" => Ok(character(alloc, &text)?),
        _ => literal(alloc, kind, &text),
    }
}
