//! Texts of cases, their tokens, and the words of answers.

use hs_base::{NoMemory, Pos};
use hs_tokens::{Origin, SourceToken, Text, Token, TokenKind, scan};
use std::alloc::{AllocError, Global};
use std::fmt::Display;

/// An answer in these words.
pub(crate) fn said(alloc: Global, words: &str) -> Result<String, NoMemory> {
    Ok(String::from_str(alloc, words)?)
}

/// Appends a word, with a space in front of it if there are others.
pub(crate) fn append_word<T: Display + Drop>(
    words: &mut String,
    word: T,
) -> Result<(), AllocError> {
    if !words.is_empty() {
        words.push_str(" ")?;
    }
    write!(words, "{word}")
}

/// Appends a text so many times.
fn append(text: &mut Vec<u8>, piece: &[u8], times: u32) -> Result<(), AllocError> {
    for _ in 0..times {
        text.extend_from_slice(piece)?;
    }
    Ok(())
}

/// The text that is written in a case: as it is, or, if there are backticks in it, the pieces between them, each as often as the
/// number after it says, or once.
///
/// Example: of `` `a` `, b` 2 `;` `` it is `a, b, b;`.
pub(crate) fn text_of(alloc: Global, written: &str) -> Result<Vec<u8>, NoMemory> {
    if !written.contains('`') {
        return Ok(written.as_bytes().to_vec(alloc)?);
    }
    let mut text = Vec::new(alloc);
    let mut piece: &[u8] = b"";
    for (number, part) in written.split('`').enumerate() {
        if number % 2 == 1 {
            piece = part.as_bytes();
        } else {
            append(&mut text, piece, part.trim().parse::<u32>().unwrap_or(1))?;
        }
    }
    Ok(text)
}

/// A function with the body that is written in a case, after a typedef of `T`.
pub(crate) fn function_with(alloc: Global, body: &str) -> Result<Vec<u8>, NoMemory> {
    let mut text = b"typedef int T;\nvoid f(void) {".to_vec(alloc)?;
    text.extend_from_slice(&text_of(alloc, body)?)?;
    text.push(b'}')?;
    Ok(text)
}

/// The tokens of a text, or nothing if the scanner refuses it.
pub(crate) fn tokens_of(alloc: Global, text: &[u8]) -> Result<Option<Vec<SourceToken>>, NoMemory> {
    if text.len() > 4_194_304 {
        return Ok(None);
    }
    let Ok(tokens) = scan(alloc, text, 0, text.len()) else {
        return Ok(None);
    };
    let sources = tokens.into_iter().map(|token| SourceToken {
        token,
        origin: Origin::Plain,
    });
    Ok(Some(sources.collect(alloc)?))
}

/// The token that is written so: a character constant or a string literal. The scanner need not accept it.
fn constant_of(alloc: Global, written: &str) -> Result<SourceToken, NoMemory> {
    let text = text_of(alloc, written)?;
    let kind = match text.first() {
        Some(b'\'') => TokenKind::Character,
        _ => TokenKind::Literal,
    };
    let token = Token {
        kind,
        text: Text::from_vec(alloc, text)?,
        pos: Pos {
            file: 0,
            line: 1,
            col: 1,
        },
        first: false,
        spaced: true,
    };
    Ok(SourceToken {
        token,
        origin: Origin::Plain,
    })
}

/// The tokens that the lines of a text are.
pub(crate) fn constants_of(alloc: Global, text: &str) -> Result<Vec<SourceToken>, NoMemory> {
    text.lines()
        .map(|line| constant_of(alloc, line))
        .try_collect(alloc)
}
