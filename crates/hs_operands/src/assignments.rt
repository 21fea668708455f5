//! Conversions as by assignment, assignments and casts (X3.159-1989 3.3.2.4, 3.3.3.1, 3.3.4 and 3.3.16).

ghost use Rattle.std.specs.Prelude.{◌≡◌, IfOk};
ghost use Rattle.hs_operand_types.specs.Answers.{Gives};
ghost use Rattle.hs_operands.specs.Assignments.{assigned_pointer, assigned_number, assigned, assign_of, update_with, direction, advance_by, update_of, one, post_advance_by, post_update_of, cast_of};
ghost use Rattle.hs_operand_types.specs.Conversions.{same_type};
ghost use Rattle.hs_tree.specs.Kinds.{number_kind, is_number, pointed, size_at};
ghost use Rattle.hs_tree.specs.Trees.{type_of, type_of_left};
ghost use Rattle.hs_tree.specs.Views.{view_right, view_left};

use crate::conversions::as_kind;
use crate::operators::int_head;
use hs_base::NoMemory;
use hs_operand_types::{
    OperandEnd, is_accessible, is_complete, is_null_constant, is_pointer, is_readable, is_scalar,
    is_void, number_kind, pointed,
};
use hs_tokens::Place;
use hs_tree::{Arithmetic, Head, Lvalue, Rvalue, Stride};
use hs_types::{Integer, TypeId, Types};
use std::alloc::Global;

/// A value, converted to the type of what it is assigned to (3.3.16.1). A null pointer constant becomes the null pointer, and any
/// pointer converts to any other (own).
///
/// Example: `'A'` becomes a number of type `short`.
pub fn assigned(
    alloc: Global,
    types: &Types,
    at: Place,
    id: TypeId,
    value: Box<Rvalue>,
) -> Result<Box<Rvalue>, OperandEnd>
    ensures { Gives (λ it. view_right it.value) (assigned types.now at id (view_right value.value)) result }
{
    if value.head().type_id == id && is_readable(types, id) {
        Ok(value)
    } else if is_pointer(types, id) {
        assigned_pointer(alloc, types, at, id, value)
    } else {
        assigned_number(alloc, types, at, id, value)
    }
}

/// A value as a pointer of that type.
fn assigned_pointer(
    alloc: Global,
    types: &Types,
    at: Place,
    id: TypeId,
    value: Box<Rvalue>,
) -> Result<Box<Rvalue>, OperandEnd>
    ensures { Gives (λ it. view_right it.value) (assigned_pointer types.now at id (view_right value.value)) result }
{
    let head = Head { at, type_id: id };
    if is_null_constant(types, &value) {
        return Ok(Box::new(alloc, Rvalue::Nil { head })?);
    }
    if !is_pointer(types, value.head().type_id) {
        return Err(OperandEnd::Untyped(at));
    }
    let made = Rvalue::ConvertPointer {
        head,
        operand: value,
    };
    Ok(Box::new(alloc, made)?)
}

/// A value as a number of that type.
fn assigned_number(
    alloc: Global,
    types: &Types,
    at: Place,
    id: TypeId,
    value: Box<Rvalue>,
) -> Result<Box<Rvalue>, OperandEnd>
    ensures { Gives (λ it. view_right it.value)
        (assigned_number at id (number_kind types.now id) (is_number types.now (type_of (view_right value.value))) (view_right value.value)) result }
{
    let Some(kind) = number_kind(types, id) else {
        return Err(OperandEnd::Untyped(at));
    };
    if number_kind(types, value.head().type_id).is_none() {
        return Err(OperandEnd::Untyped(at));
    }
    let head = Head { at, type_id: id };
    let made = Rvalue::ConvertNumber {
        head,
        kind,
        operand: value,
    };
    Ok(Box::new(alloc, made)?)
}

/// `l = e` (3.3.16.1). Refused if the object cannot be assigned to, or the value not be converted to its type.
pub fn assign(
    alloc: Global,
    types: &Types,
    at: Place,
    target: Box<Lvalue>,
    value: Box<Rvalue>,
) -> Result<Box<Rvalue>, OperandEnd>
    ensures { Gives (λ it. view_right it.value) (assign_of types.now at (view_left target.value) (view_right value.value)) result }
{
    let type_id = target.head().type_id;
    if !is_accessible(types, type_id) {
        return Err(OperandEnd::Untyped(at));
    }
    let value = assigned(alloc, types, at, type_id, value)?;
    let head = Head { at, type_id };
    let made = Rvalue::Assign {
        head,
        target,
        value,
    };
    Ok(Box::new(alloc, made)?)
}

/// `l op= e` (3.3.16.2): of two numbers, or of a pointer to a complete type and a number.
///
/// Example: `c += 1` of a `char` adds two numbers of type `int` and converts their sum to `char`.
pub fn update(
    alloc: Global,
    types: &Types,
    at: Place,
    operator: Arithmetic,
    target: Box<Lvalue>,
    value: Box<Rvalue>,
) -> Result<Box<Rvalue>, OperandEnd>
    ensures { Gives (λ it. view_right it.value) (update_of types.now at operator (view_left target.value) (view_right value.value)) result }
{
    let type_id = target.head().type_id;
    if !is_accessible(types, type_id) {
        return Err(OperandEnd::Untyped(at));
    }
    let Some(kind) = number_kind(types, value.head().type_id) else {
        return Err(OperandEnd::Untyped(at));
    };
    match number_kind(types, type_id) {
        Some(to) => Ok(update_with(alloc, at, operator, to, kind, target, value)?),
        None => advance(alloc, types, at, operator, target, value),
    }
}

/// `l op= e` on numbers of these kinds.
fn update_with(
    alloc: Global,
    at: Place,
    operator: Arithmetic,
    to: Integer,
    kind: Integer,
    target: Box<Lvalue>,
    value: Box<Rvalue>,
) -> Result<Box<Rvalue>, NoMemory>
    ensures { IfOk result (λ it. view_right it.value ≡ update_with at operator to kind (view_left target.value) (view_right value.value)) }
{
    let (kind, wanted) = match operator {
        Arithmetic::ShiftLeft | Arithmetic::ShiftRight => (to.promoted(), kind.promoted()),
        Arithmetic::Multiply
        | Arithmetic::Divide
        | Arithmetic::Remainder
        | Arithmetic::Add
        | Arithmetic::Subtract
        | Arithmetic::BitAnd
        | Arithmetic::BitXor
        | Arithmetic::BitOr => (to.common(kind), to.common(kind)),
    };
    let value = as_kind(alloc, at, wanted, value)?;
    let head = Head {
        at,
        type_id: target.head().type_id,
    };
    let made = Rvalue::Update {
        head,
        operator,
        kind,
        to,
        target,
        value,
    };
    Ok(Box::new(alloc, made)?)
}

/// Whether an operation on a pointer goes toward lower addresses, or `None` if there is no such operation.
fn direction(operator: Arithmetic) -> Option<bool>
    ensures { result ≡ direction operator }
{
    match operator {
        Arithmetic::Add => Some(false),
        Arithmetic::Subtract => Some(true),
        Arithmetic::Multiply
        | Arithmetic::Divide
        | Arithmetic::Remainder
        | Arithmetic::ShiftLeft
        | Arithmetic::ShiftRight
        | Arithmetic::BitAnd
        | Arithmetic::BitXor
        | Arithmetic::BitOr => None,
    }
}

/// The size of what a pointer points to, if that is complete.
fn pointed_size(types: &Types, pointer: TypeId) -> Option<u32>
    ensures { result ≡ size_at types.now (pointed types.now pointer) }
{
    let of = pointed(types, pointer)?;
    let layout = types.layout(of)?;
    Some(layout.size)
}

/// `p += n` and `p -= n`.
fn advance(
    alloc: Global,
    types: &Types,
    at: Place,
    operator: Arithmetic,
    target: Box<Lvalue>,
    value: Box<Rvalue>,
) -> Result<Box<Rvalue>, OperandEnd>
    ensures { Gives (λ it. view_right it.value)
        (advance_by at (direction operator) (size_at types.now (pointed types.now (type_of_left (view_left target.value))))
        (view_left target.value) (view_right value.value)) result }
{
    let Some(backward) = direction(operator) else {
        return Err(OperandEnd::Untyped(at));
    };
    let type_id = target.head().type_id;
    let Some(size) = pointed_size(types, type_id) else {
        return Err(OperandEnd::Untyped(at));
    };
    let head = Head { at, type_id };
    let made = Rvalue::Advance {
        head,
        stride: Stride { size, backward },
        target,
        value,
    };
    Ok(Box::new(alloc, made)?)
}

/// The number 1 that `++l` adds, as it is `l += 1` (3.3.3.1).
pub fn one(alloc: Global, at: Place) -> Result<Box<Rvalue>, NoMemory>
    ensures { IfOk result (λ it. view_right it.value ≡ one at) }
{
    let head = int_head(at);
    Ok(Box::new(alloc, Rvalue::Number { head, bits: 1 })?)
}

/// `l++` and `l--` (3.3.2.4): of a number, or of a pointer to a complete type. The operator is the operation with 1.
pub fn post_update(
    alloc: Global,
    types: &Types,
    at: Place,
    operator: Arithmetic,
    target: Box<Lvalue>,
) -> Result<Box<Rvalue>, OperandEnd>
    ensures { Gives (λ it. view_right it.value) (post_update_of types.now at operator (view_left target.value)) result }
{
    let type_id = target.head().type_id;
    if !is_accessible(types, type_id) {
        return Err(OperandEnd::Untyped(at));
    }
    let Some(to) = number_kind(types, type_id) else {
        return post_advance(alloc, types, at, operator, target);
    };
    let head = Head { at, type_id };
    let made = Rvalue::PostUpdate {
        head,
        operator,
        kind: to.common(Integer::Int),
        to,
        target,
    };
    Ok(Box::new(alloc, made)?)
}

/// `p++` and `p--`.
fn post_advance(
    alloc: Global,
    types: &Types,
    at: Place,
    operator: Arithmetic,
    target: Box<Lvalue>,
) -> Result<Box<Rvalue>, OperandEnd>
    ensures { Gives (λ it. view_right it.value)
        (post_advance_by at (direction operator) (size_at types.now (pointed types.now (type_of_left (view_left target.value))))
        (view_left target.value)) result }
{
    let Some(backward) = direction(operator) else {
        return Err(OperandEnd::Untyped(at));
    };
    let type_id = target.head().type_id;
    let Some(size) = pointed_size(types, type_id) else {
        return Err(OperandEnd::Untyped(at));
    };
    let head = Head { at, type_id };
    let made = Rvalue::PostAdvance {
        head,
        stride: Stride { size, backward },
        target,
    };
    Ok(Box::new(alloc, made)?)
}

/// `(type)e` (3.3.4): anything to `void`, and otherwise a scalar to a scalar type, which is complete. Between numbers and pointers
/// only a null pointer constant is converted (own).
pub fn cast(
    alloc: Global,
    types: &Types,
    at: Place,
    id: TypeId,
    operand: Box<Rvalue>,
) -> Result<Box<Rvalue>, OperandEnd>
    ensures { Gives (λ it. view_right it.value) (cast_of types.now at id (view_right operand.value)) result }
{
    let head = Head { at, type_id: id };
    if is_void(types, id) {
        return Ok(Box::new(alloc, Rvalue::Cast { head, operand })?);
    }
    if !(is_scalar(types, id) && is_complete(types, id)) {
        return Err(OperandEnd::Untyped(at));
    }
    let operand = assigned(alloc, types, at, id, operand)?;
    Ok(Box::new(alloc, Rvalue::Cast { head, operand })?)
}
