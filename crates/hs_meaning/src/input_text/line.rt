//! Reads one line of an input's text.

ghost use Rattle.std.specs.Prelude.{◌≡◌, option_copied, IfOk};
ghost use Rattle.hs_meaning.specs.InputTexts.{after, item_of, word_of};

use super::digits::{hex_bytes, number_in};
use hs_base::{Bytes, NoMemory};
use std::alloc::Global;

/// What a line says.
#[derive(Drop)]
pub(super) enum Item {
    Nothing,
    Bytes(Bytes),
    /// The low 32 bits of an answer word.
    Word(u32),
    /// The number of an allocation.
    Refused(u32),
}

/// What follows the word at the front of the text.
fn after<'a>(word: &[u8], text: &'a [u8]) -> Option<&'a [u8]>
    ensures { option_copied result ≡ after word.now text.now }
{
    text.strip_prefix(word)
}

/// The low 32 bits of the number that the text is.
fn word_of(text: &[u8]) -> Option<u32>
    ensures { result ≡ word_of text.now }
{
    let Some(size) = after(b"-", text) else {
        return number_in(0, u32::MAX, text);
    };
    Some(number_in(1, 2_147_483_648, size)?.wrapping_neg())
}

/// What the line says, if it has one of the forms.
pub(super) fn item_of(alloc: Global, line: &[u8]) -> Result<Option<Item>, NoMemory>
    ensures { IfOk result (λ item. item ≡ item_of line.now) }
{
    if line.is_empty() {
        return Ok(Some(Item::Nothing));
    }
    if let Some(digits) = after(b"bytes ", line) {
        return Ok(hex_bytes(alloc, digits)?.map(Item::Bytes));
    }
    if let Some(number) = after(b"word ", line) {
        return Ok(word_of(number).map(Item::Word));
    }
    if let Some(number) = after(b"refuse ", line) {
        return Ok(number_in(1, u32::MAX, number).map(Item::Refused));
    }
    Ok(None)
}
