//! Operators on numbers and conditions (X3.159-1989 3.3.3 and 3.3.5 to 3.3.14).

ghost use Rattle.std.specs.Prelude.{◌≡◌};
ghost use Rattle.hs_operand_types.specs.Answers.{Gives};
ghost use Rattle.hs_operand_types.specs.Conversions.{head_at};
ghost use Rattle.hs_types.specs.Rows.{integer_id};
ghost use Rattle.hs_operands.specs.Operators.{unary_of, arithmetic_of, in_common_of, shift_of, comparison_of, not_of, and_of, or_of};
ghost use Rattle.hs_tree.specs.Views.{view_right};

use crate::conversions::{as_kind, truth};
use hs_operand_types::{OperandEnd, number_kind};
use hs_tokens::Place;
use hs_tree::{Arithmetic, Comparison, Head, Rvalue, Unary};
use hs_types::{Integer, TypeId, Types};
use std::alloc::Global;

/// `+e`, `-e` and `~e` (3.3.3.3), on the promoted operand.
///
/// Example: `-c` of a `char` is an operation on an `int`.
pub fn unary(
    alloc: Global,
    types: &Types,
    at: Place,
    operator: Unary,
    operand: Box<Rvalue>,
) -> Result<Box<Rvalue>, OperandEnd>
    ensures { Gives (λ it. view_right it.value) (unary_of types.now at operator (view_right operand.value)) result }
{
    let Some(kind) = number_kind(types, operand.head().type_id) else {
        return Err(OperandEnd::Untyped(at));
    };
    let kind = kind.promoted();
    let operand = as_kind(alloc, at, kind, operand)?;
    let head = Head {
        at,
        type_id: TypeId::integer(kind),
    };
    let made = Rvalue::Unary {
        head,
        operator,
        kind,
        operand,
    };
    Ok(Box::new(alloc, made)?)
}

/// An operation on two numbers (3.3.5 to 3.3.7 and 3.3.10 to 3.3.12).
///
/// Example: `u + c` of an `unsigned int` and a `char` is an operation on two `unsigned int`.
pub fn arithmetic(
    alloc: Global,
    types: &Types,
    at: Place,
    operator: Arithmetic,
    left: Box<Rvalue>,
    right: Box<Rvalue>,
) -> Result<Box<Rvalue>, OperandEnd>
    ensures { Gives (λ it. view_right it.value) (arithmetic_of types.now at operator (view_right left.value) (view_right right.value)) result }
{
    match operator {
        Arithmetic::ShiftLeft | Arithmetic::ShiftRight => {
            shift(alloc, types, at, operator, left, right)
        }
        Arithmetic::Multiply
        | Arithmetic::Divide
        | Arithmetic::Remainder
        | Arithmetic::Add
        | Arithmetic::Subtract
        | Arithmetic::BitAnd
        | Arithmetic::BitXor
        | Arithmetic::BitOr => in_common(alloc, types, at, operator, left, right),
    }
}

/// An operation on two numbers, in their common type (3.3.5, 3.3.6 and 3.3.10 to 3.3.12).
fn in_common(
    alloc: Global,
    types: &Types,
    at: Place,
    operator: Arithmetic,
    left: Box<Rvalue>,
    right: Box<Rvalue>,
) -> Result<Box<Rvalue>, OperandEnd>
    ensures { Gives (λ it. view_right it.value) (in_common_of types.now at operator (view_right left.value) (view_right right.value)) result }
{
    let Some(first) = number_kind(types, left.head().type_id) else {
        return Err(OperandEnd::Untyped(at));
    };
    let Some(second) = number_kind(types, right.head().type_id) else {
        return Err(OperandEnd::Untyped(at));
    };
    let kind = first.common(second);
    let left = as_kind(alloc, at, kind, left)?;
    let right = as_kind(alloc, at, kind, right)?;
    let head = Head {
        at,
        type_id: TypeId::integer(kind),
    };
    let made = Rvalue::Arithmetic {
        head,
        operator,
        kind,
        left,
        right,
    };
    Ok(Box::new(alloc, made)?)
}

/// `a << b` and `a >> b` (3.3.7): each operand is promoted by itself, and the result has the type of the left one.
fn shift(
    alloc: Global,
    types: &Types,
    at: Place,
    operator: Arithmetic,
    left: Box<Rvalue>,
    right: Box<Rvalue>,
) -> Result<Box<Rvalue>, OperandEnd>
    ensures { Gives (λ it. view_right it.value) (shift_of types.now at operator (view_right left.value) (view_right right.value)) result }
{
    let Some(first) = number_kind(types, left.head().type_id) else {
        return Err(OperandEnd::Untyped(at));
    };
    let Some(second) = number_kind(types, right.head().type_id) else {
        return Err(OperandEnd::Untyped(at));
    };
    let kind = first.promoted();
    let left = as_kind(alloc, at, kind, left)?;
    let right = as_kind(alloc, at, second.promoted(), right)?;
    let head = Head {
        at,
        type_id: TypeId::integer(kind),
    };
    let made = Rvalue::Arithmetic {
        head,
        operator,
        kind,
        left,
        right,
    };
    Ok(Box::new(alloc, made)?)
}

/// A comparison of two numbers, in their common type; the result is an `int` (3.3.8 and 3.3.9).
pub fn comparison(
    alloc: Global,
    types: &Types,
    at: Place,
    operator: Comparison,
    left: Box<Rvalue>,
    right: Box<Rvalue>,
) -> Result<Box<Rvalue>, OperandEnd>
    ensures { Gives (λ it. view_right it.value) (comparison_of types.now at operator (view_right left.value) (view_right right.value)) result }
{
    let Some(first) = number_kind(types, left.head().type_id) else {
        return Err(OperandEnd::Untyped(at));
    };
    let Some(second) = number_kind(types, right.head().type_id) else {
        return Err(OperandEnd::Untyped(at));
    };
    let kind = first.common(second);
    let left = as_kind(alloc, at, kind, left)?;
    let right = as_kind(alloc, at, kind, right)?;
    let made = Rvalue::Comparison {
        head: int_head(at),
        operator,
        kind,
        left,
        right,
    };
    Ok(Box::new(alloc, made)?)
}

/// `!e` (3.3.3.3).
pub fn not(
    alloc: Global,
    types: &Types,
    at: Place,
    operand: Box<Rvalue>,
) -> Result<Box<Rvalue>, OperandEnd>
    ensures { Gives (λ it. view_right it.value) (not_of types.now at (view_right operand.value)) result }
{
    let operand = truth(alloc, types, at, operand)?;
    let made = Rvalue::Not {
        head: int_head(at),
        operand,
    };
    Ok(Box::new(alloc, made)?)
}

/// `a && b` (3.3.13).
pub fn and(
    alloc: Global,
    types: &Types,
    at: Place,
    left: Box<Rvalue>,
    right: Box<Rvalue>,
) -> Result<Box<Rvalue>, OperandEnd>
    ensures { Gives (λ it. view_right it.value) (and_of types.now at (view_right left.value) (view_right right.value)) result }
{
    let left = truth(alloc, types, at, left)?;
    let right = truth(alloc, types, at, right)?;
    let made = Rvalue::And {
        head: int_head(at),
        left,
        right,
    };
    Ok(Box::new(alloc, made)?)
}

/// `a || b` (3.3.14).
pub fn or(
    alloc: Global,
    types: &Types,
    at: Place,
    left: Box<Rvalue>,
    right: Box<Rvalue>,
) -> Result<Box<Rvalue>, OperandEnd>
    ensures { Gives (λ it. view_right it.value) (or_of types.now at (view_right left.value) (view_right right.value)) result }
{
    let left = truth(alloc, types, at, left)?;
    let right = truth(alloc, types, at, right)?;
    let made = Rvalue::Or {
        head: int_head(at),
        left,
        right,
    };
    Ok(Box::new(alloc, made)?)
}

/// What an expression of type `int` starts with.
pub(crate) fn int_head(at: Place) -> Head
    ensures { result ≡ head_at at (integer_id Integer.Int) }
{
    Head {
        at,
        type_id: TypeId::integer(Integer::Int),
    }
}
