//! Replaces an invocation by the macro's tokens, with its arguments (X3.159-1989 3.8.3.1).

ghost use Rattle.std.specs.Prelude.{◌≡◌, ◌++◌, ℕ, List, IfOk, OnOk, IfSome, length, map};
ghost use Rattle.std.specs.FinSet as set;
ghost use Rattle.std.specs.List.{flat_map};
ghost use Rattle.hs_base.specs.declared.pos.Pos.{Pos};
ghost use Rattle.hs_macros.specs.HideSets.{HideSet as NameSet};
ghost use Rattle.hs_macros.specs.Numbers.{Numbers, named};
ghost use Rattle.hs_tokens.specs.declared.token.Token.{Token as TokenValue};
ghost use Rattle.hs_macros.specs.Slots.{names_of, place_in, ArePlaced};
ghost use Rattle.hs_macros.specs.Replacement.{argument_for, from_body, from_argument, placed_at, placed, spent};
ghost use Rattle.hs_macros.specs.Stacks.{hidden, done, ahead, ready, invocation, seen_argument, room_after, parameters_in, IsJoined};

use crate::arguments::Supplied;
use crate::budget::Budget;
use crate::call::Call;
use crate::error::MacroError;
use crate::hide_set::HideSet;
use crate::pending::Pending;
use crate::slot::Slot;
use hs_base::{LimitKind, Pos};
use hs_tokens::{Origin, Token};
use std::alloc::{AllocError, Global};
use std::rc::Rc;

/// The argument of the parameter with this index, if the token names one.
fn argument_at<'b, 'a>(
    place: Option<usize>,
    arguments: &'b [Supplied<'a>],
) -> Option<&'b [Pending<'a>]>
    ensures { (names : List (List ℕ)) (token : TokenValue) → place ≡ place_in (names_of (parameters_in arguments.now)) token
        → seen_argument names result ≡ argument_for token (ready names arguments.now) }
{
    let index = place?;
    let supplied = arguments.get(index)?;
    Some(supplied.tokens.as_slice())
}

/// A token of the macro in place.
fn from_body<'a>(pos: Pos, hides: &Rc<HideSet>, token: &'a Token) -> Result<Pending<'a>, AllocError>
    ensures { (names : List (List ℕ)) → IfOk result (λ pending. hidden names pending
        ≡ from_body pos (named names hides.now.value) token.now) }
{
    Ok(Pending {
        token,
        pos,
        origin: Origin::Macro,
        hides: hides.clone()?,
    })
}

/// What a token of an argument hides in place. A set that adds nothing is not copied.
#[tactic(auto, using(crate::proofs::Rising::union_within))]
fn union_of(alloc: Global, own: &HideSet, hides: &Rc<HideSet>) -> Result<Rc<HideSet>, AllocError>
    ensures { IfOk result (λ both. both.value ≡ set.union own.now hides.now.value) }
{
    if own.is_subset(hides) {
        return hides.clone();
    }
    Ok(Rc::new(alloc, own.union(hides)?)?)
}

/// What tokens of an argument hide in place, if they hid the same before.
#[derive(Drop)]
pub(crate) struct Joined<'b> {
    /// What they hid before.
    pub(crate) own: &'b HideSet,
    /// What they hide in place.
    pub(crate) both: Rc<HideSet>,
}

/// What a token that hid `own` before hides in place. The tokens of a run mostly hid the same, so each takes the set of the last
/// one if it can.
fn shared_set<'b>(
    alloc: Global,
    own: &'b HideSet,
    hides: &Rc<HideSet>,
    last: Option<Joined<'b>>,
) -> Result<Joined<'b>, AllocError>
    requires { IfSome last (IsJoined hides.now.value) }
    ensures joined { IfOk result (IsJoined hides.now.value) }
    ensures own { IfOk result (λ joined. joined.own.now ≡ own.now) }
{
    if let Some(joined) = last {
        if joined.own.is_same(own) {
            return Ok(joined);
        }
    }
    let both = union_of(alloc, own, hides)?;
    Ok(Joined { own, both })
}

/// A token of an argument in place: it goes on hiding what it hid, with what the macro's tokens hide.
fn from_argument<'a>(
    pos: Pos,
    both: &Rc<HideSet>,
    pending: &Pending<'a>,
) -> Result<Pending<'a>, AllocError>
    ensures { (names : List (List ℕ)) (hides : Numbers) → both.now.value ≡ set.union pending.now.hides.value hides
        → IfOk result (λ placed. hidden names placed
        ≡ from_argument pos (named names hides) (hidden names pending.now)) }
{
    Ok(Pending {
        token: pending.token,
        pos,
        origin: Origin::Macro,
        hides: both.clone()?,
    })
}

/// Puts the tokens of an argument in front of those ahead.
fn put_argument<'a>(
    alloc: Global,
    pos: Pos,
    hides: &Rc<HideSet>,
    argument: &[Pending<'a>],
    tokens: &mut Vec<Pending<'a>>,
) -> Result<(), AllocError>
    ensures { (names : List (List ℕ)) → OnOk result (ahead names tokens.new.items
        ≡ map (from_argument pos (named names hides.now.value)) (done names argument.now)
        ++ ahead names tokens.old.items) }
{
    let mut last = None;
    for pending in argument.iter().rev() {
        let shared = shared_set(alloc, &pending.hides, hides, last)?;
        tokens.push(from_argument(pos, &shared.both, pending)?)?;
        last = Some(shared);
    }
    Ok(())
}

/// How many tokens stand for a token of the macro.
fn placed_len(slot: &Slot, arguments: &[Supplied]) -> usize
    ensures { (names : List (List ℕ)) (pos : Pos) (hides : NameSet)
        → slot.now.parameter ≡ place_in (names_of (parameters_in arguments.now)) slot.now.token
        → result ≡ length (placed_at pos hides (ready names arguments.now) slot.now.token) }
{
    match argument_at(slot.parameter, arguments) {
        None => 1,
        Some(argument) => argument.len(),
    }
}

/// What is left of the room for tokens after those that the macro puts in place, or nothing if they pass it. Counting
/// stops there, so no sum grows past the room.
fn room_left(room: u64, body: &[Slot], arguments: &[Supplied]) -> Option<u64>
    requires { ArePlaced (names_of (parameters_in arguments.now)) body.now }
    ensures { (names : List (List ℕ)) (pos : Pos) (hides : NameSet)
        → result ≡ room_after room (length (flat_map (λ slot. placed_at pos hides (ready names arguments.now) slot.token) body.now)) }
{
    let mut room = room;
    for slot in body {
        room = room.checked_sub(placed_len(slot, arguments) as u64)?;
    }
    Some(room)
}

impl<'a> Call<'a> {
    /// What is left after the replacement, or the limit that it passes.
    pub(crate) fn spent(&self, left: Budget) -> Result<Budget, MacroError>
        requires { ArePlaced (names_of (parameters_in self.now.ready.items)) self.now.body.now }
        ensures { (names : List (List ℕ)) → result
            ≡ spent left (length (placed (invocation names self.now) (ready names self.now.ready.items))) }
    {
        if left.replacements == 0 {
            return Err(MacroError::Limit(LimitKind::Replacements.passed()));
        }
        let Some(tokens) = room_left(left.tokens, self.body, self.ready.as_slice()) else {
            return Err(MacroError::Limit(LimitKind::Tokens.passed()));
        };
        Ok(Budget {
            replacements: left.replacements - 1,
            tokens,
        })
    }

    /// Puts the macro's tokens in place, before those after the invocation.
    pub(crate) fn place(self, alloc: Global) -> Result<Vec<Pending<'a>>, AllocError>
        requires { ArePlaced (names_of (parameters_in self.ready.items)) self.body.now }
        ensures { (names : List (List ℕ)) → IfOk result (λ tokens. ahead names tokens.items
            ≡ placed (invocation names self.entry) (ready names self.entry.ready.items)
            ++ ahead names self.entry.behind.items) }
    {
        let Call {
            body,
            pos,
            hides,
            ready,
            waiting: _,
            behind,
        } = self;
        let mut tokens = behind;
        for slot in body.iter().rev() {
            match argument_at(slot.parameter, ready.as_slice()) {
                Some(argument) => put_argument(alloc, pos, &hides, argument, &mut tokens)?,
                None => tokens.push(from_body(pos, &hides, &slot.token)?)?,
            }
        }
        Ok(tokens)
    }
}
