//! Answers about the fronts of a text.

use crate::parsing::texts::{said, tokens_of};
use crate::parsing::units;
use hs_base::NoMemory;
use hs_cases::Case;
use std::alloc::Global;

/// The answer about a text, or nothing if it has no tokens.
fn front_answer(alloc: Global, text: &[u8]) -> Result<Option<String>, NoMemory> {
    match tokens_of(alloc, text)? {
        Some(tokens) => Ok(Some(units::answer(alloc, &tokens, units::Asked::Verdict)?)),
        None => Ok(None),
    }
}

/// What all fronts of a text that end after its first so many bytes, and before its end, are answered by if they have tokens: as it
/// is wanted, or otherwise.
fn common_answer(
    alloc: Global,
    text: &[u8],
    begin: usize,
    wanted: &str,
) -> Result<String, NoMemory> {
    for end in begin.saturating_add(1)..text.len() {
        if let Some(answer) = front_answer(alloc, &text[..end])? {
            if answer.as_str() != wanted {
                return Ok(answer);
            }
        }
    }
    said(alloc, wanted)
}

/// What the fronts of a text are answered by that end inside the part after its line `@fronts`.
pub(crate) fn answer(alloc: Global, it: &Case<'_>) -> Result<String, NoMemory> {
    let Some((before, inside)) = it.text.split_once("@fronts\n") else {
        return said(alloc, "no line @fronts");
    };
    let text = format!(in alloc; "{before}{inside}")?;
    common_answer(alloc, text.as_bytes(), before.len(), it.wanted)
}
