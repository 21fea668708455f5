//! The value of a condition, read from left to right (X3.159-1989 3.8.1).

ghost use Rattle.std.specs.Prelude.{◌≡◌, reverse, IfOk, IfSome, IfNone};
ghost use Rattle.hs_constants.specs.Conditions.{Means};
ghost use Rattle.hs_constants.specs.Reading.{tokens_of, seen, operand_step, operator_step, step, condition_value};

use crate::constant::constant_of;
use crate::operator::{binary_of, precedence_of, unary_of};
use crate::value::Value;
use crate::waiting::{Waiting, settled};
use hs_tokens::{SourceToken, Token, is_mark};
use std::alloc::{AllocError, Global};

/// Where the reading of a condition stands.
#[derive(Clone, Copy)]
enum Stage {
    /// In front of an operand.
    Before,
    /// After an operand of this value.
    Behind(Value),
}

/// The precedence of `?:`, which binds loosest (X3.159-1989 3.3.15).
const CONDITIONAL: u32 = 0;

/// The precedence of `||`, and of the test in front of a `?` (X3.159-1989 3.3.14 and 3.3.15).
const LOGICAL_OR: u32 = 1;

/// Takes a token in front of an operand: a constant, an operator or an open parenthesis (X3.159-1989 3.3.1 and
/// 3.3.3). Nothing if it is another.
fn operand_step(waiting: &mut Vec<Waiting>, token: &Token) -> Result<Option<Stage>, AllocError>
    ensures { IfOk result (λ next. seen (reverse waiting.new.items) next
        ≡ operand_step (reverse waiting.old.items) token.now) }
{
    if let Some(value) = constant_of(token) {
        return Ok(Some(Stage::Behind(value)));
    }
    if let Some(operator) = unary_of(token) {
        waiting.push(Waiting::Prefix(operator))?;
    } else if is_mark(b"(", token) {
        waiting.push(Waiting::Group)?;
    } else {
        return Ok(None);
    }
    Ok(Some(Stage::Before))
}

/// Takes a token after an operand: an operator, or what ends a part (X3.159-1989 3.3.1 and 3.3.5 to 3.3.15). Nothing
/// where it is another, or ends nothing.
fn operator_step(
    waiting: &mut Vec<Waiting>,
    value: Value,
    token: &Token,
) -> Result<Option<Stage>, AllocError>
    ensures { IfOk result (λ next. seen (reverse waiting.new.items) next
        ≡ operator_step (reverse waiting.old.items) value token.now) }
{
    if let Some(operator) = binary_of(token) {
        let left = settled(waiting, precedence_of(operator), value);
        waiting.push(Waiting::Infix(left, operator))?;
        return Ok(Some(Stage::Before));
    }
    if is_mark(b"?", token) {
        let test = settled(waiting, LOGICAL_OR, value);
        waiting.push(Waiting::Test(test))?;
        return Ok(Some(Stage::Before));
    }
    if is_mark(b":", token) {
        let left = settled(waiting, CONDITIONAL, value);
        let Some(Waiting::Test(test)) = waiting.pop() else {
            return Ok(None);
        };
        waiting.push(Waiting::Branch(test, left))?;
        return Ok(Some(Stage::Before));
    }
    if is_mark(b")", token) {
        let inside = settled(waiting, CONDITIONAL, value);
        let Some(Waiting::Group) = waiting.pop() else {
            return Ok(None);
        };
        return Ok(Some(Stage::Behind(inside)));
    }
    Ok(None)
}

/// Takes the next token, from that place on.
fn step(
    waiting: &mut Vec<Waiting>,
    place: Stage,
    token: &Token,
) -> Result<Option<Stage>, AllocError>
    ensures { IfOk result (λ next. seen (reverse waiting.new.items) next
        ≡ step place (reverse waiting.old.items) token.now) }
{
    match place {
        Stage::Before => operand_step(waiting, token),
        Stage::Behind(value) => operator_step(waiting, value, token),
    }
}

/// The value of a condition, if the tokens are one (X3.159-1989 3.8.1 and 3.4). What waits for an operand stands on a
/// stack of its own, so that no nesting is too deep.
///
/// Example: `1 + 2 * 3` has the value 7, and `1 +` has none.
pub fn condition_value(alloc: Global, tokens: &[SourceToken]) -> Result<Option<Value>, AllocError>
    ensures read { IfOk result (λ value. value ≡ condition_value (tokens_of tokens.now)) }
    ensures found { IfOk result (λ value. IfSome value (Means 0 (tokens_of tokens.now))) }
    ensures only { IfOk result (λ value. IfSome value (λ value.
        (other : Value) → Means 0 (tokens_of tokens.now) other → other ≡ value)) }
    ensures none { IfOk result (λ value. IfNone value (
        (other : Value) → Means 0 (tokens_of tokens.now) other → ⊥)) }
{
    let mut waiting = Vec::new(alloc);
    let mut place = Stage::Before;
    'tokens: for source in tokens {
        let Some(next) = step(&mut waiting, place, &source.token)? else {
            return Ok(None);
        };
        place = next;
    }
    let Stage::Behind(last) = place else {
        return Ok(None);
    };
    let value = settled(&mut waiting, CONDITIONAL, last);
    Ok(waiting.is_empty().then_some(value))
}
