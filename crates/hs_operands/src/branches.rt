//! `?:` and the comma (X3.159-1989 3.3.15 and 3.3.17).

ghost use Rattle.std.specs.Prelude.{◌≡◌, IfOk, map};
ghost use Rattle.hs_operand_types.specs.Answers.{Gives};
ghost use Rattle.hs_operands.specs.Assignments.{as_pointer, pointers_chosen, pointer_branches, other_branches, numbers_chosen, branches_by, conditional_of, comma_of};
ghost use Rattle.hs_tree.specs.Kinds.{number_kind, pointed};
ghost use Rattle.hs_tree.specs.Trees.{type_of};
ghost use Rattle.hs_tree.specs.Views.{view_right};

use crate::conversions::{as_kind, truth};
use hs_base::NoMemory;
use hs_operand_types::{
    OperandEnd, are_compatible, is_null_constant, is_open, is_pointer, is_void, number_kind,
    pointed,
};
use hs_tokens::Place;
use hs_tree::{Head, Rvalue};
use hs_types::{Integer, TypeId, Types};
use std::alloc::Global;

/// `c ? a : b` (3.3.15): of two numbers, in their common type; of two values of one type; of a pointer and a null pointer constant; of
/// two pointers, if one is to `void` or they are to compatible types.
pub fn conditional(
    alloc: Global,
    types: &Types,
    at: Place,
    test: Box<Rvalue>,
    then: Box<Rvalue>,
    otherwise: Box<Rvalue>,
) -> Result<Box<Rvalue>, OperandEnd>
    ensures { Gives (λ it. view_right it.value)
        (conditional_of types.now at (view_right test.value) (view_right then.value) (view_right otherwise.value)) result }
{
    let test = truth(alloc, types, at, test)?;
    branches(alloc, types, at, test, then, otherwise)
}

/// The branches under a condition that is a number.
fn branches(
    alloc: Global,
    types: &Types,
    at: Place,
    test: Box<Rvalue>,
    then: Box<Rvalue>,
    otherwise: Box<Rvalue>,
) -> Result<Box<Rvalue>, OperandEnd>
    ensures { Gives (λ it. view_right it.value)
        (branches_by types.now at (number_kind types.now (type_of (view_right then.value))) (number_kind types.now (type_of (view_right otherwise.value)))
        (view_right test.value) (view_right then.value) (view_right otherwise.value)) result }
{
    let Some(first) = number_kind(types, then.head().type_id) else {
        return other_branches(alloc, types, at, test, then, otherwise);
    };
    let Some(second) = number_kind(types, otherwise.head().type_id) else {
        return other_branches(alloc, types, at, test, then, otherwise);
    };
    Ok(numbers_chosen(alloc, at, first.common(second), test, then, otherwise)?)
}

/// Two numbers as numbers of that kind.
fn numbers_chosen(
    alloc: Global,
    at: Place,
    kind: Integer,
    test: Box<Rvalue>,
    then: Box<Rvalue>,
    otherwise: Box<Rvalue>,
) -> Result<Box<Rvalue>, NoMemory>
    ensures { IfOk result (λ it. view_right it.value
        ≡ numbers_chosen at kind (view_right test.value) (view_right then.value) (view_right otherwise.value)) }
{
    let then = as_kind(alloc, at, kind, then)?;
    let otherwise = as_kind(alloc, at, kind, otherwise)?;
    let head = Head {
        at,
        type_id: TypeId::integer(kind),
    };
    chosen(alloc, head, test, then, otherwise)
}

/// The branches as they are.
fn chosen(
    alloc: Global,
    head: Head,
    test: Box<Rvalue>,
    then: Box<Rvalue>,
    otherwise: Box<Rvalue>,
) -> Result<Box<Rvalue>, NoMemory>
    ensures { IfOk result (λ it. view_right it.value
        ≡ Rattle.hs_tree.specs.Trees.conditional head (view_right test.value) (view_right then.value) (view_right otherwise.value)) }
{
    let made = Rvalue::Conditional {
        head,
        test,
        then,
        otherwise,
    };
    Ok(Box::new(alloc, made)?)
}

/// Branches that are not both numbers.
fn other_branches(
    alloc: Global,
    types: &Types,
    at: Place,
    test: Box<Rvalue>,
    then: Box<Rvalue>,
    otherwise: Box<Rvalue>,
) -> Result<Box<Rvalue>, OperandEnd>
    ensures { Gives (λ it. view_right it.value)
        (other_branches types.now at (view_right test.value) (view_right then.value) (view_right otherwise.value)) result }
{
    let first = then.head().type_id;
    let second = otherwise.head().type_id;
    if first == second {
        let head = Head { at, type_id: first };
        return Ok(chosen(alloc, head, test, then, otherwise)?);
    }
    if is_pointer(types, first) && is_null_constant(types, &otherwise) {
        let head = Head { at, type_id: first };
        let otherwise = Box::new(alloc, Rvalue::Nil { head })?;
        return Ok(chosen(alloc, head, test, then, otherwise)?);
    }
    if is_pointer(types, second) && is_null_constant(types, &then) {
        let head = Head {
            at,
            type_id: second,
        };
        let then = Box::new(alloc, Rvalue::Nil { head })?;
        return Ok(chosen(alloc, head, test, then, otherwise)?);
    }
    pointer_branches(alloc, types, at, test, then, otherwise)
}

/// Branches of which both must be pointers.
fn pointer_branches(
    alloc: Global,
    types: &Types,
    at: Place,
    test: Box<Rvalue>,
    then: Box<Rvalue>,
    otherwise: Box<Rvalue>,
) -> Result<Box<Rvalue>, OperandEnd>
    ensures { Gives (λ it. view_right it.value)
        (pointer_branches types.now at (pointed types.now (type_of (view_right then.value))) (pointed types.now (type_of (view_right otherwise.value)))
        (view_right test.value) (view_right then.value) (view_right otherwise.value)) result }
{
    let left = then.head().type_id;
    let right = otherwise.head().type_id;
    let Some(first) = pointed(types, left) else {
        return Err(OperandEnd::Untyped(at));
    };
    let Some(second) = pointed(types, right) else {
        return Err(OperandEnd::Untyped(at));
    };
    let id = if is_void(types, first) {
        left
    } else if is_void(types, second) {
        right
    } else if are_compatible(types, first, second) {
        if is_open(types, first) { right } else { left }
    } else {
        return Err(OperandEnd::Untyped(at));
    };
    Ok(pointers_chosen(alloc, at, id, test, then, otherwise)?)
}

/// Two pointers as pointers of that type.
fn pointers_chosen(
    alloc: Global,
    at: Place,
    id: TypeId,
    test: Box<Rvalue>,
    then: Box<Rvalue>,
    otherwise: Box<Rvalue>,
) -> Result<Box<Rvalue>, NoMemory>
    ensures { IfOk result (λ it. view_right it.value
        ≡ pointers_chosen at id (view_right test.value) (view_right then.value) (view_right otherwise.value)) }
{
    let then = as_pointer(alloc, at, id, then)?;
    let otherwise = as_pointer(alloc, at, id, otherwise)?;
    let head = Head { at, type_id: id };
    chosen(alloc, head, test, then, otherwise)
}

/// A pointer as one of that type.
fn as_pointer(
    alloc: Global,
    at: Place,
    id: TypeId,
    pointer: Box<Rvalue>,
) -> Result<Box<Rvalue>, NoMemory>
    ensures { IfOk result (λ it. view_right it.value ≡ as_pointer at id (view_right pointer.value)) }
{
    if pointer.head().type_id == id {
        return Ok(pointer);
    }
    let head = Head { at, type_id: id };
    let made = Rvalue::ConvertPointer {
        head,
        operand: pointer,
    };
    Ok(Box::new(alloc, made)?)
}

/// `a, b, c` (3.3.17): the left operands and the last one, whose type it has.
#[tactic(auto, using(hs_tree::specs::RowLaws::rights_seen))]
pub fn comma(
    alloc: Global,
    at: Place,
    lefts: Vec<Rvalue>,
    right: Box<Rvalue>,
) -> Result<Box<Rvalue>, NoMemory>
    ensures { IfOk result (λ it. view_right it.value ≡ comma_of at (map view_right lefts.items) (view_right right.value)) }
{
    let head = Head {
        at,
        type_id: right.head().type_id,
    };
    Ok(Box::new(alloc, Rvalue::Comma { head, lefts, right })?)
}
