//! Operators on pointers, and on numbers or pointers (X3.159-1989 3.3.6, 3.3.8 and 3.3.9).

ghost use Rattle.std.specs.Prelude.{◌≡◌};
ghost use Rattle.hs_operand_types.specs.Answers.{Gives};
ghost use Rattle.hs_operands.specs.Pointers.{are_numbers, plus_of, minus_of, difference_by, is_equality, is_equal, may_be_equal, are_equally_complete, have_order, may_be_compared, is_nil_test, pointers_compared, compared, stepped};
ghost use Rattle.hs_operands.specs.Objects.{spacing};
ghost use Rattle.hs_tree.specs.Kinds.{pointed};
ghost use Rattle.hs_tree.specs.Trees.{type_of};
ghost use Rattle.hs_tree.specs.Views.{view_right};

use crate::operators::{arithmetic, comparison, int_head};
use crate::spacing::spacing_of;
use hs_operand_types::{
    OperandEnd, are_compatible, is_complete, is_null_constant, is_pointer, is_void, number_kind,
    pointed,
};
use hs_tokens::Place;
use hs_tree::{Arithmetic, Comparison, Head, Rvalue, Stride};
use hs_types::{Integer, TypeId, Types};
use std::alloc::Global;

/// Whether both operands are numbers.
fn are_numbers(types: &Types, left: &Rvalue, right: &Rvalue) -> bool
    ensures { result ≡ are_numbers types.now (view_right left.now) (view_right right.now) }
{
    number_kind(types, left.head().type_id).is_some()
        && number_kind(types, right.head().type_id).is_some()
}

/// A pointer and a number, added or subtracted.
fn stepped(
    alloc: Global,
    types: &Types,
    at: Place,
    backward: bool,
    left: Box<Rvalue>,
    right: Box<Rvalue>,
) -> Result<Box<Rvalue>, OperandEnd>
    ensures { Gives (λ it. view_right it.value)
        (stepped at backward (view_right left.value) (view_right right.value)
        (spacing types.now (type_of (view_right left.value)) (type_of (view_right right.value)))) result }
{
    let first = left.head().type_id;
    let second = right.head().type_id;
    let Some(it) = spacing_of(types, first, second) else {
        return Err(OperandEnd::Untyped(at));
    };
    let type_id = if it.pointer_first { first } else { second };
    let head = Head { at, type_id };
    let stride = Stride {
        size: it.size,
        backward,
    };
    let made = Rvalue::Step {
        head,
        stride,
        pointer_first: it.pointer_first,
        left,
        right,
    };
    Ok(Box::new(alloc, made)?)
}

/// `a + b` (3.3.6): of two numbers, or of a pointer to a complete type and a number in either order.
pub fn plus(
    alloc: Global,
    types: &Types,
    at: Place,
    left: Box<Rvalue>,
    right: Box<Rvalue>,
) -> Result<Box<Rvalue>, OperandEnd>
    ensures { Gives (λ it. view_right it.value) (plus_of types.now at (view_right left.value) (view_right right.value)) result }
{
    if are_numbers(types, &left, &right) {
        arithmetic(alloc, types, at, Arithmetic::Add, left, right)
    } else {
        stepped(alloc, types, at, false, left, right)
    }
}

/// `a - b` (3.3.6): of two numbers, of a pointer and a number, or of two pointers to compatible types.
pub fn minus(
    alloc: Global,
    types: &Types,
    at: Place,
    left: Box<Rvalue>,
    right: Box<Rvalue>,
) -> Result<Box<Rvalue>, OperandEnd>
    ensures { Gives (λ it. view_right it.value) (minus_of types.now at (view_right left.value) (view_right right.value)) result }
{
    if are_numbers(types, &left, &right) {
        arithmetic(alloc, types, at, Arithmetic::Subtract, left, right)
    } else if number_kind(types, right.head().type_id).is_some() {
        stepped(alloc, types, at, true, left, right)
    } else {
        difference(alloc, types, at, left, right)
    }
}

/// The difference of two pointers.
fn difference(
    alloc: Global,
    types: &Types,
    at: Place,
    left: Box<Rvalue>,
    right: Box<Rvalue>,
) -> Result<Box<Rvalue>, OperandEnd>
    ensures { Gives (λ it. view_right it.value)
        (difference_by types.now at (view_right left.value) (view_right right.value)
        (pointed types.now (type_of (view_right left.value))) (pointed types.now (type_of (view_right right.value)))) result }
{
    let Some(first) = pointed(types, left.head().type_id) else {
        return Err(OperandEnd::Untyped(at));
    };
    let Some(second) = pointed(types, right.head().type_id) else {
        return Err(OperandEnd::Untyped(at));
    };
    if !are_compatible(types, first, second) {
        return Err(OperandEnd::Untyped(at));
    }
    let Some(layout) = types.layout(first) else {
        return Err(OperandEnd::Untyped(at));
    };
    let Some(other) = types.layout(second) else {
        return Err(OperandEnd::Untyped(at));
    };
    if layout.size != other.size {
        return Err(OperandEnd::Untyped(at));
    }
    let head = Head {
        at,
        type_id: TypeId::integer(Integer::Long),
    };
    let made = Rvalue::Difference {
        head,
        size: layout.size,
        left,
        right,
    };
    Ok(Box::new(alloc, made)?)
}

/// Whether the operator is `==` or `!=`.
fn is_equality(operator: Comparison) -> bool
    ensures { result ≡ is_equality operator }
{
    match operator {
        Comparison::Equal | Comparison::NotEqual => true,
        Comparison::Less | Comparison::Greater | Comparison::LessEqual | Comparison::GreaterEqual =>
            false,
    }
}

/// Whether the operator is `==`.
fn is_equal(operator: Comparison) -> bool
    ensures { result ≡ is_equal operator }
{
    match operator {
        Comparison::Equal => true,
        Comparison::NotEqual
        | Comparison::Less
        | Comparison::Greater
        | Comparison::LessEqual
        | Comparison::GreaterEqual => false,
    }
}

/// Whether pointers to these types can be tested for equality (3.3.9): the types are compatible, or one is `void`.
fn may_be_equal(types: &Types, first: TypeId, second: TypeId) -> bool
    ensures { result ≡ may_be_equal types.now first second }
{
    are_compatible(types, first, second) || is_void(types, first) || is_void(types, second)
}

/// Whether both types are complete, or both are incomplete.
fn are_equally_complete(types: &Types, first: TypeId, second: TypeId) -> bool
    ensures { result ≡ are_equally_complete types.now first second }
{
    let complete = is_complete(types, second);
    if is_complete(types, first) {
        complete
    } else {
        !complete
    }
}

/// Whether pointers to these types have an order (3.3.8): the types are compatible, and both are object types or both incomplete.
fn have_order(types: &Types, first: TypeId, second: TypeId) -> bool
    ensures { result ≡ have_order types.now first second }
{
    are_compatible(types, first, second) && are_equally_complete(types, first, second)
}

/// Whether two pointers may be compared: in order, or for equality.
fn may_be_compared(types: &Types, equality: bool, left: TypeId, right: TypeId) -> bool
    ensures { result ≡ may_be_compared types.now equality (pointed types.now left) (pointed types.now right) }
{
    let Some(first) = pointed(types, left) else {
        return false;
    };
    let Some(second) = pointed(types, right) else {
        return false;
    };
    if equality {
        may_be_equal(types, first, second)
    } else {
        have_order(types, first, second)
    }
}

/// Whether a comparison is one of a pointer with a null pointer constant, which is the second.
fn is_nil_test(types: &Types, operator: Comparison, pointer: &Rvalue, null: &Rvalue) -> bool
    ensures { result ≡ is_nil_test types.now operator (view_right pointer.now) (view_right null.now) }
{
    is_equality(operator)
        && is_pointer(types, pointer.head().type_id)
        && is_null_constant(types, null)
}

/// A comparison of two pointers.
fn pointers_compared(
    alloc: Global,
    types: &Types,
    at: Place,
    operator: Comparison,
    left: Box<Rvalue>,
    right: Box<Rvalue>,
) -> Result<Box<Rvalue>, OperandEnd>
    ensures { Gives (λ it. view_right it.value) (pointers_compared types.now at operator (view_right left.value) (view_right right.value)) result }
{
    let first = left.head().type_id;
    let second = right.head().type_id;
    if !may_be_compared(types, is_equality(operator), first, second) {
        return Err(OperandEnd::Untyped(at));
    }
    let made = Rvalue::ComparePointers {
        head: int_head(at),
        operator,
        left,
        right,
    };
    Ok(Box::new(alloc, made)?)
}

/// `a < b`, `a == b` and the other comparisons (3.3.8 and 3.3.9): of two numbers, of a pointer and a null pointer constant on either
/// side, or of two pointers. An order asks for pointers to two object types or to two incomplete types.
///
/// Example: `p == (void *)0` is a test whether `p` is the null pointer.
pub fn compared(
    alloc: Global,
    types: &Types,
    at: Place,
    operator: Comparison,
    left: Box<Rvalue>,
    right: Box<Rvalue>,
) -> Result<Box<Rvalue>, OperandEnd>
    ensures { Gives (λ it. view_right it.value) (compared types.now at operator (view_right left.value) (view_right right.value)) result }
{
    if are_numbers(types, &left, &right) {
        comparison(alloc, types, at, operator, left, right)
    } else if is_nil_test(types, operator, &left, &right) {
        nil_test(alloc, at, operator, left)
    } else if is_nil_test(types, operator, &right, &left) {
        nil_test(alloc, at, operator, right)
    } else {
        pointers_compared(alloc, types, at, operator, left, right)
    }
}

/// A test whether a pointer is the null pointer, or is not.
fn nil_test(
    alloc: Global,
    at: Place,
    operator: Comparison,
    pointer: Box<Rvalue>,
) -> Result<Box<Rvalue>, OperandEnd>
    ensures { Gives (λ it. view_right it.value) (Ok (Rattle.hs_operands.specs.Pointers.nil_test at operator (view_right pointer.value))) result }
{
    let made = Rvalue::IsNil {
        head: int_head(at),
        equal: is_equal(operator),
        pointer,
    };
    Ok(Box::new(alloc, made)?)
}
