//! Sets of effects.

use crate::refusal::Refusal;
use bitflags::Flags;
use hs_code::Effects;
use std::alloc::Global;

/// The effect that a word names.
fn effect(word: &str) -> Effects {
    match word {
        "moves" => Effects::MOVES,
        "purges" => Effects::PURGES,
        "unlocks" => Effects::UNLOCKS,
        "marks" => Effects::MARKS,
        "bits" => Effects::BITS,
        _ => Effects::DISPOSES,
    }
}

/// The set of the effects that the words of a text name, as its bits, and whether `moves`, `purges` and `unlocks` are in it.
pub(crate) fn answer(alloc: Global, text: &str) -> Result<String, Refusal> {
    let mut set = Effects::empty();
    for word in text.split(' ') {
        set = set.union(effect(word));
    }
    let moves = set.contains(Effects::MOVES);
    let purges = set.contains(Effects::PURGES);
    let unlocks = set.intersects(Effects::UNLOCKS);
    Ok(format!(in alloc; "{} {moves} {purges} {unlocks}", set.bits())?)
}
