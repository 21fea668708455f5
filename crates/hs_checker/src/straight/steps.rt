//! Reads the steps of a straight program.

ghost use Rattle.std.specs.Prelude.{◌≡◌, ◌<◌, ◌^◌, length, [], IsTrue, IfOk, IfSome, IfNone};
ghost use Rattle.hs_tree.specs.Straight.Fine.{kind_eq, is_declared, assigns, was_assigned, is_readable, is_fine_expr, is_fine_step, are_fine_names};
ghost use Rattle.hs_base.specs.Options.{Seen};
ghost use Rattle.hs_checker.specs.Straight.Reading.{handle_at, lock_at, unlock_at, putchar_at, store_at, new_handle_at, derive_at, set_at, source_at, assign_at, form_at, step_at};
ghost use Rattle.hs_checker.specs.Straight.Rows.{AreSteps, NoSteps};

use crate::straight::exprs::expr;
use crate::straight::marks::{is_at, mark};
use crate::straight::names::variable;
use crate::straight::numbers::number;
use hs_base::NoMemory;
use hs_tokens::SourceToken;
use hs_tree::straight::{Expr, Kind, Step, Variable};
use std::alloc::Global;

/// Whether the variable of that number has that kind.
fn is_declared(kind: Kind, variables: &[Variable], number: u32) -> bool
    ensures { result ≡ is_declared kind variables.now number }
{
    match variables.get(number as usize) {
        None => false,
        Some(variable) => variable.kind == kind,
    }
}

/// Whether the step assigns the variable.
pub(crate) fn assigns(variable: u32, step: Step) -> bool
    ensures { result ≡ assigns variable step }
{
    match step {
        Step::NewHandle { handle, .. } => handle == variable,
        Step::Derive { pointer, .. } => pointer == variable,
        Step::Set { letter, .. } => letter == variable,
        Step::HLock { .. } | Step::HUnlock { .. } | Step::Store { .. } | Step::Putchar { .. } => {
            false
        }
    }
}

/// Whether one of the steps assigns the variable.
fn was_assigned(variable: u32, done: &[Step]) -> bool
    ensures { result ≡ was_assigned variable done.now }
{
    done.iter().any(|step| assigns(variable, *step))
}

/// Whether the variable has that kind and one of the steps assigns it.
fn is_readable(kind: Kind, variables: &[Variable], done: &[Step], number: u32) -> bool
    ensures { result ≡ is_readable kind variables.now done.now number }
{
    is_declared(kind, variables, number) && was_assigned(number, done)
}

/// Whether the expression may stand after these steps.
fn is_fine_expr(variables: &[Variable], done: &[Step], value: Expr) -> bool
    ensures { result ≡ is_fine_expr variables.now done.now value }
{
    match value {
        Expr::Letter { letter, .. } => is_readable(Kind::Letter, variables, done, letter),
        Expr::Load { pointer, .. } => is_readable(Kind::Pointer, variables, done, pointer),
        Expr::Number { value } => value <= 127,
    }
}

/// Whether the step may stand after these steps, in whichever order they are listed.
fn is_fine_step(variables: &[Variable], done: &[Step], step: Step) -> bool
    ensures { result ≡ is_fine_step variables.now done.now step }
{
    match step {
        Step::NewHandle { handle, size } => {
            is_declared(Kind::Handle, variables, handle) && size <= 32767
        }
        Step::HLock { handle, .. } | Step::HUnlock { handle, .. } => {
            is_readable(Kind::Handle, variables, done, handle)
        }
        Step::Derive {
            pointer,
            handle,
            ..
        } => {
            is_declared(Kind::Pointer, variables, pointer)
                && is_readable(Kind::Handle, variables, done, handle)
        }
        Step::Set { letter, value } => {
            is_declared(Kind::Letter, variables, letter) && is_fine_expr(variables, done, value)
        }
        Step::Store { pointer, value, .. } => {
            is_readable(Kind::Pointer, variables, done, pointer)
                && is_fine_expr(variables, done, value)
        }
        Step::Putchar { value } => is_fine_expr(variables, done, value),
    }
}

/// Reads a handle in parentheses.
#[tactic(auto, unfolding(crate::specs::Straight::Reading::handle_at))]
fn handle<'a>(variables: &[Variable], tokens: &'a [SourceToken]) -> Option<(u32, &'a [SourceToken])>
    requires { length variables.now < 2 ^ 32 }
    ensures { Seen (λ x. (x.0, x.1.now)) result (handle_at variables.now tokens.now) }
{
    let (_, rest) = mark(b"(", tokens)?;
    let (handle, rest) = variable(variables, rest)?;
    let (_, rest) = mark(b")", rest)?;
    Some((handle, rest))
}

/// Reads `HLock(handle)`.
#[tactic(auto, unfolding(crate::specs::Straight::Reading::lock_at))]
fn lock<'a>(variables: &[Variable], tokens: &'a [SourceToken]) -> Option<(Step, &'a [SourceToken])>
    requires { length variables.now < 2 ^ 32 }
    ensures { Seen (λ x. (x.0, x.1.now)) result (lock_at variables.now tokens.now) }
{
    let (pos, rest) = mark(b"HLock", tokens)?;
    let (handle, rest) = handle(variables, rest)?;
    Some((Step::HLock { pos, handle }, rest))
}

/// Reads `HUnlock(handle)`.
#[tactic(auto, unfolding(crate::specs::Straight::Reading::unlock_at))]
fn unlock<'a>(
    variables: &[Variable],
    tokens: &'a [SourceToken],
) -> Option<(Step, &'a [SourceToken])>
    requires { length variables.now < 2 ^ 32 }
    ensures { Seen (λ x. (x.0, x.1.now)) result (unlock_at variables.now tokens.now) }
{
    let (pos, rest) = mark(b"HUnlock", tokens)?;
    let (handle, rest) = handle(variables, rest)?;
    Some((Step::HUnlock { pos, handle }, rest))
}

/// Reads `putchar(value)`.
#[tactic(auto, unfolding(crate::specs::Straight::Reading::putchar_at))]
fn putchar<'a>(
    variables: &[Variable],
    tokens: &'a [SourceToken],
) -> Option<(Step, &'a [SourceToken])>
    requires { length variables.now < 2 ^ 32 }
    ensures { Seen (λ x. (x.0, x.1.now)) result (putchar_at variables.now tokens.now) }
{
    let (_, rest) = mark(b"putchar", tokens)?;
    let (_, rest) = mark(b"(", rest)?;
    let (value, rest) = expr(variables, rest)?;
    let (_, rest) = mark(b")", rest)?;
    Some((Step::Putchar { value }, rest))
}

/// Reads `*pointer = value`.
#[tactic(auto, unfolding(crate::specs::Straight::Reading::store_at))]
fn store<'a>(variables: &[Variable], tokens: &'a [SourceToken]) -> Option<(Step, &'a [SourceToken])>
    requires { length variables.now < 2 ^ 32 }
    ensures { Seen (λ x. (x.0, x.1.now)) result (store_at variables.now tokens.now) }
{
    let (_, rest) = mark(b"*", tokens)?;
    let (pointer, rest) = variable(variables, rest)?;
    let (pos, rest) = mark(b"=", rest)?;
    let (value, rest) = expr(variables, rest)?;
    Some((
        Step::Store {
            pos,
            pointer,
            value,
        },
        rest,
    ))
}

/// Reads `NewHandle(number)`, which is assigned to the handle.
#[tactic(auto, unfolding(crate::specs::Straight::Reading::new_handle_at))]
fn new_handle(handle: u32, tokens: &[SourceToken]) -> Option<(Step, &[SourceToken])>
    ensures { Seen (λ x. (x.0, x.1.now)) result (new_handle_at handle tokens.now) }
{
    let (_, rest) = mark(b"NewHandle", tokens)?;
    let (_, rest) = mark(b"(", rest)?;
    let (size, rest) = number(32767, rest)?;
    let (_, rest) = mark(b")", rest)?;
    Some((
        Step::NewHandle {
            handle,
            size: size as u16,
        },
        rest,
    ))
}

/// Reads `*handle`, which is assigned to the pointer.
#[tactic(auto, unfolding(crate::specs::Straight::Reading::derive_at))]
fn derive<'a>(
    variables: &[Variable],
    pointer: u32,
    tokens: &'a [SourceToken],
) -> Option<(Step, &'a [SourceToken])>
    requires { length variables.now < 2 ^ 32 }
    ensures { Seen (λ x. (x.0, x.1.now)) result (derive_at variables.now pointer tokens.now) }
{
    let (pos, rest) = mark(b"*", tokens)?;
    let (handle, rest) = variable(variables, rest)?;
    Some((
        Step::Derive {
            pos,
            pointer,
            handle,
        },
        rest,
    ))
}

/// Reads a value, which is assigned to the letter.
#[tactic(auto, unfolding(crate::specs::Straight::Reading::set_at))]
fn set<'a>(
    variables: &[Variable],
    letter: u32,
    tokens: &'a [SourceToken],
) -> Option<(Step, &'a [SourceToken])>
    requires { length variables.now < 2 ^ 32 }
    ensures { Seen (λ x. (x.0, x.1.now)) result (set_at variables.now letter tokens.now) }
{
    let (value, rest) = expr(variables, tokens)?;
    Some((Step::Set { letter, value }, rest))
}

/// Reads what is assigned to the variable of that number: its kind decides the form.
#[tactic(auto, unfolding(crate::specs::Straight::Reading::source_at))]
fn source<'a>(
    variables: &[Variable],
    number: u32,
    tokens: &'a [SourceToken],
) -> Option<(Step, &'a [SourceToken])>
    requires { length variables.now < 2 ^ 32 }
    ensures { Seen (λ x. (x.0, x.1.now)) result (source_at variables.now number tokens.now) }
{
    if is_declared(Kind::Handle, variables, number) {
        new_handle(number, tokens)
    } else if is_declared(Kind::Pointer, variables, number) {
        derive(variables, number, tokens)
    } else {
        set(variables, number, tokens)
    }
}

/// Reads an assignment to a variable.
#[tactic(auto, unfolding(crate::specs::Straight::Reading::assign_at))]
fn assign<'a>(
    variables: &[Variable],
    tokens: &'a [SourceToken],
) -> Option<(Step, &'a [SourceToken])>
    requires { length variables.now < 2 ^ 32 }
    ensures { Seen (λ x. (x.0, x.1.now)) result (assign_at variables.now tokens.now) }
{
    let (target, rest) = variable(variables, tokens)?;
    let (_, rest) = mark(b"=", rest)?;
    source(variables, target, rest)
}

/// Reads a step without its semicolon.
#[tactic(auto, unfolding(crate::specs::Straight::Reading::form_at))]
fn form<'a>(variables: &[Variable], tokens: &'a [SourceToken]) -> Option<(Step, &'a [SourceToken])>
    requires { length variables.now < 2 ^ 32 }
    ensures { Seen (λ x. (x.0, x.1.now)) result (form_at variables.now tokens.now) }
{
    if is_at(b"*", tokens) {
        store(variables, tokens)
    } else if is_at(b"HLock", tokens) {
        lock(variables, tokens)
    } else if is_at(b"HUnlock", tokens) {
        unlock(variables, tokens)
    } else if is_at(b"putchar", tokens) {
        putchar(variables, tokens)
    } else {
        assign(variables, tokens)
    }
}

/// Reads a step and its semicolon, if it may stand after the steps done.
#[tactic(auto, unfolding(crate::specs::Straight::Reading::step_at))]
fn step<'a>(
    variables: &[Variable],
    done: &[Step],
    tokens: &'a [SourceToken],
) -> Option<(Step, &'a [SourceToken])>
    requires { length variables.now < 2 ^ 32 }
    ensures { Seen (λ x. (x.0, x.1.now)) result (step_at variables.now done.now tokens.now) }
{
    let (step, rest) = form(variables, tokens)?;
    let (_, rest) = mark(b";", rest)?;
    if is_fine_step(variables, done, step) {
        Some((step, rest))
    } else {
        None
    }
}

/// Reads all steps, up to the `return`: in the order of the text, and the tokens after them. `None` if one is not
/// spelled as a step, or may not follow those before it.
pub(crate) fn steps<'a>(
    alloc: Global,
    variables: &[Variable],
    tokens: &'a [SourceToken],
) -> Result<Option<(Vec<Step>, &'a [SourceToken])>, NoMemory>
    requires few { length variables.now < 2 ^ 32 }
    requires named { IsTrue (are_fine_names [] variables.now) }
    ensures found { IfOk result (λ read. IfSome read (λ x. AreSteps variables.now tokens.now x.0.items x.1.now)) }
    ensures none { IfOk result (λ read. IfNone read (NoSteps variables.now tokens.now)) }
{
    let mut steps = Vec::new(alloc);
    let mut rest = tokens;
    'all: while !is_at(b"return", rest) {
        let Some((step, after)) = step(variables, &steps, rest) else {
            return Ok(None);
        };
        steps.push(step)?;
        rest = after;
    }
    Ok(Some((steps, rest)))
}
