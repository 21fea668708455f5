//! Reads one line of a script's text.

ghost use Rattle.std.specs.Prelude.{◌≡◌, ◌==◌, option_copied, take, drop, IfOk, IfSome};
ghost use Rattle.std.specs.List.{position, position_or_len};
ghost use Rattle.hs_meaning.specs.InputTexts.{after};
ghost use Rattle.hs_movers.specs.ScriptTexts.{decision_by, decision_in, item_of, numbered_in, purged_in, then_purged, which_in};

use super::numbers::{count_in, number_in, numbers_in};
use crate::still::no_block;
use hs_base::{NoMemory, Numbers};
use hs_heap::{Decision, Which};
use std::alloc::Global;

/// What a line says.
#[derive(Drop)]
pub(super) enum Item {
    Nothing,
    /// The seed.
    Seed(u64),
    /// The number of a decision, and the decision.
    Numbered(u32, Decision),
}

/// What follows the word at the front of the text.
fn after<'a>(word: &[u8], text: &'a [u8]) -> Option<&'a [u8]>
    ensures { option_copied result ≡ after word.now text.now }
{
    text.strip_prefix(word)
}

/// The place of the first byte of that value.
fn place_of(stop: u8, text: &[u8]) -> Option<usize>
    ensures { result ≡ position (λ byte. byte == stop) text.now }
{
    text.iter().position(|byte| *byte == stop)
}

/// The text in front of the first byte of that value, and what begins there.
#[tactic(auto, using(crate::proofs::ScriptTextLaws::place_or_end, crate::proofs::ScriptTextLaws::place_inside))]
fn split_before(stop: u8, text: &[u8]) -> (&[u8], &[u8])
    ensures front { result.0.now ≡ take (position_or_len (λ byte. byte == stop) text.now) text.now }
    ensures back { result.1.now ≡ drop (position_or_len (λ byte. byte == stop) text.now) text.now }
{
    text.split_at(place_of(stop, text).unwrap_or(text.len()))
}

/// The blocks that a list names.
fn which_in(alloc: Global, text: &[u8]) -> Result<Option<Which>, NoMemory>
    ensures { IfOk result (λ which. which ≡ which_in text.now) }
{
    if text == b"all".as_slice() {
        return Ok(Some(Which::All));
    }
    Ok(numbers_in(alloc, text)?.map(Which::These))
}

/// The blocks that are purged, by what follows the word.
fn purged_in(alloc: Global, list: Option<&[u8]>) -> Result<Option<Which>, NoMemory>
    ensures { IfOk result (λ which. which ≡ purged_in (option_copied list.entry)) }
{
    let Some(list) = list else {
        return Ok(None);
    };
    which_in(alloc, list)
}

/// The decision that moves these blocks. The text says which are purged, if it is not empty.
fn then_purged(alloc: Global, moves: Which, text: &[u8]) -> Result<Option<Decision>, NoMemory>
    ensures { IfOk result (λ decision. decision ≡ then_purged moves text.now) }
{
    if text.is_empty() {
        let purges = Which::These(Numbers::from_vec(Vec::new(alloc)));
        return Ok(Some(Decision { moves, purges }));
    }
    let Some(purges) = purged_in(alloc, after(b" purge ", text))? else {
        return Ok(None);
    };
    Ok(Some(Decision { moves, purges }))
}

/// The decision that moves the blocks of the list at the front.
fn moved_in(alloc: Global, text: &[u8]) -> Result<Option<Decision>, NoMemory>
    ensures { IfOk result (λ decision. decision ≡ decision_by (Some text.now) None) }
{
    let (list, rest) = split_before(b' ', text);
    let Some(moves) = which_in(alloc, list)? else {
        return Ok(None);
    };
    then_purged(alloc, moves, rest)
}

/// The decision that only purges, by what follows the word.
fn only_purged(alloc: Global, list: Option<&[u8]>) -> Result<Option<Decision>, NoMemory>
    ensures { IfOk result (λ decision. decision ≡ decision_by None (option_copied list.entry)) }
{
    let Some(purges) = purged_in(alloc, list)? else {
        return Ok(None);
    };
    let moves = Which::These(Numbers::from_vec(Vec::new(alloc)));
    Ok(Some(Decision { moves, purges }))
}

/// The decision that a line has after its colon.
fn decision_in(alloc: Global, text: &[u8]) -> Result<Option<Decision>, NoMemory>
    ensures { IfOk result (λ decision. decision ≡ decision_in text.now) }
{
    if text == b" none".as_slice() {
        return Ok(Some(no_block(alloc)));
    }
    if let Some(list) = after(b" move ", text) {
        return moved_in(alloc, list);
    }
    only_purged(alloc, after(b" purge ", text))
}

/// The number of a decision and the decision.
fn numbered_in(alloc: Global, line: &[u8]) -> Result<Option<Item>, NoMemory>
    ensures { IfOk result (λ item. item ≡ numbered_in line.now) }
{
    let (digits, rest) = split_before(b':', line);
    let Some(number) = count_in(4_000_000, digits) else {
        return Ok(None);
    };
    let Some(text) = after(b":", rest) else {
        return Ok(None);
    };
    let Some(decision) = decision_in(alloc, text)? else {
        return Ok(None);
    };
    Ok(Some(Item::Numbered(number, decision)))
}

/// What the line says, if it has one of the forms.
pub(super) fn item_of(alloc: Global, line: &[u8]) -> Result<Option<Item>, NoMemory>
    ensures { IfOk result (λ item. item ≡ item_of line.now) }
{
    if line.is_empty() {
        return Ok(Some(Item::Nothing));
    }
    if let Some(number) = after(b"seed ", line) {
        return Ok(number_in(0, u64::MAX, number).map(Item::Seed));
    }
    numbered_in(alloc, line)
}
