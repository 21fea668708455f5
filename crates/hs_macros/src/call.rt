//! Invocations of macros.

ghost use Rattle.std.specs.Prelude.{◌≡◌, ℕ, List, [], IfOk, IfErr};
ghost use Rattle.hs_macros.specs.Replacement.{object, found_call, found_form, found};
ghost use Rattle.hs_macros.specs.Arguments.{arguments_from};
ghost use Rattle.hs_macros.specs.Numbers.{names_in, definitions_in, IsNumber};
ghost use Rattle.hs_macros.specs.Slots.{names_of, tokens_of, Fits};
ghost use Rattle.hs_macros.specs.Stacks.{hidden, ahead, invocation, IsReplacing, IsFound, IsCalled, IsKnown, IsFit};
ghost use Rattle.hs_macros.specs.declared.error.MacroError.TheVariants.{NoMemory as no_memory};

use crate::arguments::{Between, Supplied, arguments_ahead, bound};
use crate::definition::Parts;
use crate::error::MacroError;
use crate::hide_set::HideSet;
use crate::pending::Pending;
use crate::slot::{Parameter, Slot};
use crate::table::{Numbered, Table, look_up};
use hs_base::Pos;
use hs_tokens::{Token, is_identifier, is_mark};
use std::alloc::{AllocError, Global};
use std::rc::Rc;

/// An invocation of a macro, whose arguments are expanded before its tokens are put in place.
#[derive(Drop)]
pub(crate) struct Call<'a> {
    /// The macro's tokens.
    pub(crate) body: &'a [Slot],
    /// Where they will stand.
    pub(crate) pos: Pos,
    /// What they will hide.
    pub(crate) hides: Rc<HideSet>,
    /// The arguments that are ready, in order.
    pub(crate) ready: Vec<Supplied<'a>>,
    /// Those that wait, the next one last.
    pub(crate) waiting: Vec<Supplied<'a>>,
    /// The tokens after the invocation, the next one last.
    pub(crate) behind: Vec<Pending<'a>>,
}

/// What begins at a token.
#[derive(Drop)]
pub(crate) enum Found<'a> {
    /// The token stays. After it are these, the next one last.
    Stays(Vec<Pending<'a>>),
    /// An invocation.
    Invoked(Call<'a>),
}

/// The bytes of the name.
fn name_of<'a>(name: &Pending<'a>) -> &'a [u8]
    ensures { result.now ≡ name.now.token.now.text }
{
    let token: &'a Token = name.token;
    token.text.items()
}

/// The invocation of an object-like macro of this number (X3.159-1989 3.8.3).
fn object_call<'a>(
    alloc: Global,
    name: &Pending<'a>,
    number: u32,
    body: &'a [Slot],
    behind: Vec<Pending<'a>>,
) -> Result<Call<'a>, AllocError>
    ensures call { (names : List (List ℕ)) → IsNumber names name.now.token.now.text number
        → IfOk result (λ call. invocation names call
        ≡ object (hidden names name.now) (tokens_of body.now) (ahead names behind.entry.items)) }
    ensures ready { IfOk result (λ call. call.ready.items ≡ []) }
    ensures waiting { IfOk result (λ call. call.waiting.items ≡ []) }
    ensures fits { Fits [] body.now → IfOk result IsKnown }
{
    let hides = name.hides.object_hides(number)?;
    Ok(Call {
        body,
        pos: name.pos,
        hides: Rc::new(alloc, hides)?,
        ready: Vec::new(alloc),
        waiting: Vec::new(alloc),
        behind,
    })
}

/// The invocation of a function-like macro of this number, whose opening parenthesis stands before the tokens
/// (X3.159-1989 3.8.3).
fn function_call<'a>(
    alloc: Global,
    name: &Pending<'a>,
    number: u32,
    body: &'a [Slot],
    parameters: &'a [Parameter],
    tokens: Vec<Pending<'a>>,
) -> Result<Call<'a>, MacroError>
    ensures called { (names : List (List ℕ)) → IsNumber names name.now.token.now.text number → IsCalled names
        (found_call (hidden names name.now) (tokens_of body.now) (names_of parameters.now)
        (arguments_from 0 (ahead names tokens.entry.items)))
        name.now.pos result }
    ensures fits { Fits parameters.now body.now → IfOk result IsKnown }
{
    let mut behind = tokens;
    let Some(between) = arguments_ahead(alloc, &mut behind)? else {
        return Err(MacroError::ArgCount(name.pos));
    };
    let Between { given, close } = between;
    let Some(waiting) = bound(alloc, parameters, given)? else {
        return Err(MacroError::ArgCount(name.pos));
    };
    // The arguments left room, which would stay allocated while they are expanded. Giving it back moves the tokens that are
    // left, so it is done only if those fill less than a quarter.
    if behind.len() < behind.capacity() / 4 {
        behind.shrink_to_fit();
    }
    let hides = name.hides.call_hides(&close.hides, number)?;
    Ok(Call {
        body,
        pos: name.pos,
        hides: Rc::new(alloc, hides)?,
        ready: Vec::new(alloc),
        waiting,
        behind,
    })
}

/// The definition that may replace the token, with its number: an identifier that has a definition and does not hide its own
/// name.
fn replacing<'a>(table: &'a Table, token: &Pending<'a>) -> Result<Option<Numbered<'a>>, MacroError>
    ensures replaces { IfOk result (IsReplacing table.now.entries token.now) }
    ensures refused { IfErr result (λ error. error ≡ no_memory) }
{
    if !is_identifier(token.token) {
        return Ok(None);
    }
    let Some(found) = look_up(table, name_of(token))? else {
        return Ok(None);
    };
    if token.hides.contains(found.number) {
        return Ok(None);
    }
    Ok(Some(found))
}

/// What begins at a token with these after it, the next one last (X3.159-1989 3.8.3). A token that hides its own name
/// stays, and so does the name of a function-like macro that no parenthesis follows.
pub(crate) fn invocation_at<'a>(
    alloc: Global,
    table: &'a Table,
    token: &Pending<'a>,
    tokens: Vec<Pending<'a>>,
) -> Result<Found<'a>, MacroError>
    ensures found { let names = names_in table.now.entries in
        IsFound names (found (definitions_in table.now.entries) (hidden names token.now) (ahead names tokens.entry.items))
        token.now.pos (ahead names tokens.entry.items) result }
    ensures fits { IfOk result IsFit }
{
    let Some(found) = replacing(table, token)? else {
        return Ok(Found::Stays(tokens));
    };
    let Numbered { number, definition } = found;
    let Parts { parameters, body } = definition.parts();
    let Some(parameters) = parameters else {
        return Ok(Found::Invoked(object_call(alloc, token, number, body, tokens)?));
    };
    let mut behind = tokens;
    let Some(next) = behind.pop() else {
        return Ok(Found::Stays(behind));
    };
    if is_mark(b"(", next.token) {
        let call = function_call(alloc, token, number, body, parameters, behind)?;
        return Ok(Found::Invoked(call));
    }
    behind.push(next)?;
    Ok(Found::Stays(behind))
}
