//! Replaces the macros in a list of tokens (X3.159-1989 3.8.3).

ghost use Rattle.std.specs.Prelude.{◌≡◌, ◌≤◌, ◌<◌, ◌+◌, ◌⊎◌, ℕ, List, [], ◌∷◌, ◌++◌, length, OnOk, IfOk, IfErr, Ok, Err};
ghost use Rattle.hs_macros.specs.Definitions.{Definitions};
ghost use Rattle.hs_macros.specs.Refusals.{IsRefusal};
ghost use Rattle.hs_macros.specs.Replacement.{with_front, expanded, replaced_by, replaced};
ghost use Rattle.hs_macros.specs.Loads.{load};
ghost use Rattle.hs_macros.specs.Numbers.{names_in, definitions_in};
ghost use Rattle.hs_macros.specs.Stacks.{hidden, done, ahead, waiting, IsKnown};
ghost use Rattle.hs_macros.specs.Frames.{frame_outcome, call_outcome, after_argument, resumed, IsStep, with_sources, weight_of, weights, weight};

use crate::arguments::Supplied;
use crate::budget::Budget;
use crate::call::{Call, Found, invocation_at};
use crate::error::MacroError;
use crate::frame::{Frame, Suspended};
use crate::pending::{Pending, put_sources, tokens_ahead};
use crate::table::Table;
use hs_tokens::{SourceToken, Token};
use std::alloc::{AllocError, Global};

/// The tokens of a run, replaced, and what is left.
#[derive(Drop)]
pub(crate) struct Replaced {
    pub(crate) tokens: Vec<SourceToken>,
    pub(crate) left: Budget,
}

/// Begins the next argument that the macro uses, or puts its tokens in place if none waits.
fn proceed<'a>(
    alloc: Global,
    calls: &mut Vec<Suspended<'a>>,
    before: Vec<Pending<'a>>,
    call: Call<'a>,
    left: Budget,
) -> Result<Frame<'a>, MacroError>
    requires { IsKnown call }
    ensures step { (names : List (List ℕ)) (macros : Definitions)
        → IsStep (resumed names macros calls.old.items (call_outcome names macros (done names before.entry.items) call.entry left))
        (λ frame. resumed names macros calls.new.items (frame_outcome names macros frame)) result }
    ensures falls { (names : List (List ℕ)) → IfOk result (λ frame. weights names calls.new.items + weight frame
        ≤ weights names calls.old.items + load (waiting names call.entry.waiting.items) + length call.entry.behind.items + left.tokens) }
{
    let mut call = call;
    'arguments: while let Some(argument) = call.waiting.pop() {
        if argument.parameter.used {
            let Supplied { parameter, tokens } = argument;
            let mut tokens = tokens;
            tokens.reverse();
            calls.push(Suspended {
                before,
                call,
                parameter,
            })?;
            return Ok(Frame {
                before: Vec::new(alloc),
                tokens,
                left,
            });
        }
        call.ready.push(argument)?;
    }
    let left = call.spent(left)?;
    Ok(Frame {
        before,
        tokens: call.place(alloc)?,
        left,
    })
}

/// Takes the next token, with the frame's tokens after it: it stays, or the invocation that it begins is begun.
fn take_token<'a>(
    alloc: Global,
    table: &'a Table,
    calls: &mut Vec<Suspended<'a>>,
    frame: Frame<'a>,
    token: Pending<'a>,
) -> Result<Frame<'a>, MacroError>
    ensures step { let names = names_in table.now.entries in let macros = definitions_in table.now.entries in
        IsStep (resumed names macros calls.old.items (with_front (done names frame.entry.before.items)
        (expanded macros frame.entry.left (hidden names token.entry ∷ ahead names frame.entry.tokens.items))))
        (λ frame. resumed names macros calls.new.items (frame_outcome names macros frame)) result }
    ensures falls { let names = names_in table.now.entries in
        IfOk result (λ next. weights names calls.new.items + weight next ≤ weights names calls.old.items + weight frame.entry) }
{
    let Frame {
        before,
        tokens,
        left,
    } = frame;
    match invocation_at(alloc, table, &token, tokens)? {
        Found::Stays(tokens) => {
            let mut before = before;
            before.push(token)?;
            Ok(Frame {
                before,
                tokens,
                left,
            })
        }
        Found::Invoked(call) => proceed(alloc, calls, before, call, left),
    }
}

/// Takes up the invocation that waited for the frame's tokens, which are done.
fn take_up<'a>(
    alloc: Global,
    calls: &mut Vec<Suspended<'a>>,
    suspended: Suspended<'a>,
    frame: Frame<'a>,
) -> Result<Frame<'a>, MacroError>
    requires { frame.tokens.items ≡ [] }
    ensures step { (names : List (List ℕ)) (macros : Definitions)
        → IsStep (resumed names macros (calls.old.items ++ suspended.entry ∷ []) (frame_outcome names macros frame.entry))
        (λ frame. resumed names macros calls.new.items (frame_outcome names macros frame)) result }
    ensures falls { (names : List (List ℕ)) → IfOk result (λ next. weights names calls.new.items + weight next
        < weights names calls.old.items + weight_of names suspended.entry + weight frame.entry) }
{
    let Suspended {
        before,
        call,
        parameter,
    } = suspended;
    let mut call = call;
    call.ready.push(Supplied {
        parameter,
        tokens: frame.before,
    })?;
    proceed(alloc, calls, before, call, frame.left)
}

/// If no invocation waits, gives the frame's tokens that are done to the sources: what they hide is of no use any more.
fn give_done<'a>(
    calls: &[Suspended<'a>],
    frame: &mut Frame<'a>,
    sources: &mut Vec<SourceToken>,
) -> Result<(), AllocError>
    ensures same { OnOk result ((names : List (List ℕ)) (macros : Definitions)
        → with_sources sources.new.items (replaced_by (resumed names macros calls.now (frame_outcome names macros frame.new)))
        ≡ with_sources sources.old.items (replaced_by (resumed names macros calls.now (frame_outcome names macros frame.old)))) }
    ensures weight { OnOk result (weight frame.new ≡ weight frame.old) }
    ensures given { OnOk result (calls.now ≡ [] → frame.new.before.items ≡ []) }
{
    if calls.is_empty() {
        put_sources(frame.before.as_slice(), sources)?;
        frame.before.clear();
    }
    Ok(())
}

/// Replaces what the run invokes (X3.159-1989 3.8.3). Of the tokens that are done, only those that an invocation waits for
/// keep what they hide.
pub(crate) fn replaced_run(
    alloc: Global,
    table: &Table,
    run: &[Token],
    left: Budget,
) -> Result<Replaced, MacroError>
    ensures replaced { IfOk result (λ done. replaced (definitions_in table.now.entries) left run.now
        ≡ Ok (record { tokens = done.tokens.items; left = done.left })) }
    ensures refused { IfErr result (IsRefusal (replaced (definitions_in table.now.entries) left run.now)) }
{
    let mut calls = Vec::new(alloc);
    let mut sources = Vec::new(alloc);
    let mut frame = Frame {
        before: Vec::new(alloc),
        tokens: tokens_ahead(alloc, run)?,
        left,
    };
    'steps: loop {
        give_done(&calls, &mut frame, &mut sources)?;
        if let Some(token) = frame.tokens.pop() {
            frame = take_token(alloc, table, &mut calls, frame, token)?;
        } else if let Some(suspended) = calls.pop() {
            frame = take_up(alloc, &mut calls, suspended, frame)?;
        } else {
            return Ok(Replaced {
                tokens: sources,
                left: frame.left,
            });
        }
    }
}
