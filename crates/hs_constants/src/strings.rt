//! The bytes of string literals (X3.159-1989 3.1.4).

ghost use Rattle.std.specs.Prelude.{◌≡◌, ◌++◌, length, IfOk, is_some};
ghost use Rattle.hs_constants.specs.Characters.{content_of, characters_of};
ghost use Rattle.hs_constants.specs.Escapes.{IsBehindCount};
ghost use Rattle.hs_constants.specs.Strings.{counted, string_value};

use crate::characters::character_ahead;
use hs_base::{Bytes, NoMemory};
use std::alloc::Global;

/// What is between the quotes.
fn content_of(text: &[u8]) -> &[u8]
    ensures { result.now ≡ content_of text.now }
{
    match text {
        [_, content @ .., _] => content,
        _ => &text[..0],
    }
}

/// What follows the `\p` of a content, if it begins with one.
fn behind_count(content: &[u8]) -> Option<&[u8]>
    ensures { IsBehindCount content.now result }
{
    match content {
        [b'\\', b'p', counted @ ..] => Some(counted),
        _ => None,
    }
}

/// How many characters a content has.
fn character_count(content: &[u8]) -> usize
    ensures { result ≡ length (characters_of content.now) }
{
    let mut rest = content;
    let mut count = 0;
    'characters: while let Some(character) = character_ahead(rest) {
        rest = character.behind;
        count += 1;
    }
    count
}

/// The bytes, then the values of the characters of a content.
fn with_characters(bytes: Vec<u8>, content: &[u8]) -> Result<Vec<u8>, NoMemory>
    ensures { IfOk result (λ all. all.items ≡ bytes.items ++ characters_of content.now) }
{
    let mut all = bytes;
    let mut rest = content;
    'characters: while let Some(character) = character_ahead(rest) {
        all.push(character.value)?;
        rest = character.behind;
    }
    Ok(all)
}

/// The bytes of a string literal that begins with `\p`, from what follows that.
fn counted(alloc: Global, content: &[u8]) -> Result<Option<Bytes>, NoMemory>
    ensures { IfOk result (λ bytes. bytes ≡ counted (characters_of content.now)) }
{
    let count = character_count(content);
    if count > 255 {
        return Ok(None);
    }
    let mut front = Vec::with_capacity(alloc, count + 1)?;
    front.push(count as u8)?;
    let bytes = with_characters(front, content)?;
    Ok(Some(Bytes::from_vec(bytes)))
}

/// Returns the bytes of a string literal, with its quotes in the text. If it begins with `\p`, the first byte is the
/// number of the others, and it has no value if they are more than 255 (X3.159-1989 3.1.4, and own). The scanner lets no
/// such literal through.
///
/// Example: `"a\n"` is 97 and 10, and `"\pabc"` is 3, 97, 98 and 99.
pub fn string_value(alloc: Global, text: &[u8]) -> Result<Option<Bytes>, NoMemory>
    ensures { IfOk result (λ bytes. bytes ≡ string_value text.now) }
{
    let content = content_of(text);
    if let Some(rest) = behind_count(content) {
        return counted(alloc, rest);
    }
    let bytes = with_characters(Vec::new(alloc), content)?;
    Ok(Some(Bytes::from_vec(bytes)))
}

/// Says whether a string literal has a value, as `string_value` returns it. Takes no memory (X3.159-1989 3.1.4, and own).
///
/// Example: `"a\n"` has one. `"\p"` with 256 letters after it, in the quotes, has none.
pub fn has_string_value(text: &[u8]) -> bool
    ensures { result ≡ is_some (string_value text.now) }
{
    match behind_count(content_of(text)) {
        Some(rest) => character_count(rest) < 256,
        None => true,
    }
}
