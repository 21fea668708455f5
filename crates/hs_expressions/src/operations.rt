//! Operations on typed operands, by the operators of the syntax (X3.159-1989 3.3).

ghost use Rattle.std.specs.Prelude.{◌≡◌, IfOk, map};
ghost use Rattle.hs_expressions.specs.Operations.{as_value, as_object, binary_of, is_arrow, member_operand, takes_object, stepped, listed_taken, taken_by, addressed, prefix_object, prefix_value, operation_of_postfix, postfix_of, operation_of_assignment, assigned_by, assignment_of, routine_call, bound_call, call_with, call_operand};
ghost use Rattle.hs_typer.specs.Steps.{Gives, Steps, on_types, lifted};
ghost use Rattle.hs_operand_types.specs.Answers as answers;
ghost use Rattle.hs_operands.specs.Assignments.{cast_of, conditional_of, comma_of};
ghost use Rattle.hs_operands.specs.Calls.{view_called};
ghost use Rattle.hs_operands.specs.Objects.{loaded, element_of, arrow_of, size_number, size_of_operand};
ghost use Rattle.hs_operand_types.specs.Operands.{view_operand, value};
ghost use Rattle.hs_tree.specs.Views.{view_right, view_left};

use crate::roles::fits_role;
use hs_base::NoMemory;
use hs_operand_types::{Bound, Designator, Operand, OperandEnd};
use hs_operands::{
    CheckedCall, address, and, arithmetic, arrow, assign, call, call_routine, called, cast,
    compared, conditional, element_of, loaded, member, minus, not, object_of, one, or, plus,
    post_update, size_number, size_of_operand, target, unary, update,
};
use hs_syntax::{Access, AssignOperator, BinaryOperator, PostfixOperator, PrefixOperator};
use hs_tokens::Place;
use hs_tree::{Arithmetic, Comparison, Lvalue, Rvalue, Unary};
use hs_typer::{RoutineCall, Taken, TypeError, Typer};
use hs_types::{TypeId, Types};
use std::alloc::Global;

/// The value of an operand (3.2.2.1).
pub(crate) fn load(
    alloc: Global,
    typer: &mut Typer,
    operand: Operand,
) -> Result<Box<Rvalue>, TypeError>
    ensures { Steps (λ it. view_right it.value) typer.new (on_types (λ types. lifted (loaded types (view_operand operand))) typer.old) result }
{
    Ok(loaded(alloc, &mut typer.types, operand)?)
}

/// `a[b]`.
pub(crate) fn element(
    alloc: Global,
    types: &Types,
    at: Place,
    left: Box<Rvalue>,
    right: Box<Rvalue>,
) -> Result<Operand, TypeError>
    ensures { Gives view_operand (as_object (element_of types.now at (view_right left.value) (view_right right.value))) result }
{
    Ok(Operand::Object(element_of(alloc, types, at, left, right)?))
}

/// Whether the operator is `->`.
pub(crate) fn is_arrow(access: Access) -> bool
    ensures { result ≡ is_arrow access }
{
    match access {
        Access::Dot => false,
        Access::Arrow => true,
    }
}

/// `e->f`.
pub(crate) fn arrow_operand(
    alloc: Global,
    types: &Types,
    at: Place,
    name: &[u8],
    pointer: Box<Rvalue>,
) -> Result<Operand, TypeError>
    ensures { Gives view_operand (as_object (arrow_of types.now at name.now (view_right pointer.value))) result }
{
    Ok(Operand::Object(arrow(alloc, types, at, name, pointer)?))
}

/// `e.f`.
pub(crate) fn member_operand(
    alloc: Global,
    types: &Types,
    at: Place,
    name: &[u8],
    operand: Operand,
) -> Result<Operand, TypeError>
    ensures { Gives view_operand (member_operand types.now at name.now (view_operand operand)) result }
{
    let object = object_of(at, operand)?;
    Ok(Operand::Object(member(alloc, types, at, name, object)?))
}

/// The operation of `++` or `--`.
fn operation_of_postfix(operator: PostfixOperator) -> Arithmetic
    ensures { result ≡ operation_of_postfix operator }
{
    match operator {
        PostfixOperator::Increment => Arithmetic::Add,
        PostfixOperator::Decrement => Arithmetic::Subtract,
    }
}

/// `l++` and `l--`.
pub(crate) fn postfix_of(
    alloc: Global,
    types: &Types,
    operator: PostfixOperator,
    at: Place,
    operand: Operand,
) -> Result<Operand, TypeError>
    ensures { Gives view_operand (postfix_of operator types.now at (view_operand operand)) result }
{
    let object = object_of(at, operand)?;
    let operation = operation_of_postfix(operator);
    Ok(Operand::Value(post_update(alloc, types, at, operation, object)?))
}

/// Whether an operator in front asks for an object, and not for its value.
pub(crate) fn takes_object(operator: PrefixOperator) -> bool
    ensures { result ≡ takes_object operator }
{
    match operator {
        PrefixOperator::Increment | PrefixOperator::Decrement | PrefixOperator::Address => true,
        PrefixOperator::Dereference
        | PrefixOperator::Plus
        | PrefixOperator::Minus
        | PrefixOperator::Complement
        | PrefixOperator::Not => false,
    }
}

/// `++l` and `--l`, which are `l += 1` and `l -= 1`.
fn stepped(
    alloc: Global,
    types: &Types,
    at: Place,
    operation: Arithmetic,
    operand: Operand,
) -> Result<Operand, TypeError>
    ensures { Gives view_operand (stepped types.now at operation (view_operand operand)) result }
{
    let object = object_of(at, operand)?;
    let number = one(alloc, at)?;
    Ok(Operand::Value(update(alloc, types, at, operation, object, number)?))
}

/// What an address of an object is taken of, if that is a variable or a field.
fn taken_by(object: &Lvalue) -> Option<Taken>
    ensures { listed_taken result ≡ taken_by (view_left object.now) }
{
    match object {
        Lvalue::Variable { variable, .. } => Some(Taken::Variable(*variable)),
        Lvalue::Member { field, .. } | Lvalue::Arrow { field, .. } => Some(Taken::Field(*field)),
        Lvalue::Literal { .. } | Lvalue::Target { .. } | Lvalue::Element { .. } => None,
    }
}

/// `&e`. What the address is taken of is noted.
fn addressed(
    alloc: Global,
    typer: &mut Typer,
    at: Place,
    operand: Operand,
) -> Result<Operand, TypeError>
    ensures { Steps view_operand typer.new (addressed at (view_operand operand) typer.old) result }
{
    let object = object_of(at, operand)?;
    if typer.counts {
        if let Some(it) = taken_by(&object) {
            typer.taken.push(it)?;
        }
    }
    Ok(Operand::Value(address(alloc, &mut typer.types, at, object)?))
}

/// An operator in front that asks for an object.
pub(crate) fn prefix_object(
    alloc: Global,
    typer: &mut Typer,
    operator: PrefixOperator,
    at: Place,
    operand: Operand,
) -> Result<Operand, TypeError>
    ensures { Steps view_operand typer.new (prefix_object operator at (view_operand operand) typer.old) result }
{
    match operator {
        PrefixOperator::Increment => stepped(alloc, &typer.types, at, Arithmetic::Add, operand),
        PrefixOperator::Decrement => {
            stepped(alloc, &typer.types, at, Arithmetic::Subtract, operand)
        }
        PrefixOperator::Address
        | PrefixOperator::Dereference
        | PrefixOperator::Plus
        | PrefixOperator::Minus
        | PrefixOperator::Complement
        | PrefixOperator::Not => addressed(alloc, typer, at, operand),
    }
}

/// An operator in front that asks for a value.
pub(crate) fn prefix_value(
    alloc: Global,
    types: &Types,
    operator: PrefixOperator,
    at: Place,
    operand: Box<Rvalue>,
) -> Result<Operand, TypeError>
    ensures { Gives view_operand (prefix_value operator types.now at (view_right operand.value)) result }
{
    match operator {
        PrefixOperator::Dereference => { Ok(Operand::Object(target(alloc, types, at, operand)?)) }
        PrefixOperator::Plus => Ok(Operand::Value(unary(alloc, types, at, Unary::Plus, operand)?)),
        PrefixOperator::Minus => Ok(Operand::Value(unary(
            alloc,
            types,
            at,
            Unary::Minus,
            operand,
        )?)),
        PrefixOperator::Complement => Ok(Operand::Value(unary(
            alloc,
            types,
            at,
            Unary::Complement,
            operand,
        )?)),
        PrefixOperator::Not => Ok(Operand::Value(not(alloc, types, at, operand)?)),
        PrefixOperator::Increment | PrefixOperator::Decrement | PrefixOperator::Address => {
            Err(TypeError::Untyped(at))
        }
    }
}

/// `sizeof e`.
pub(crate) fn size_operand(
    alloc: Global,
    types: &Types,
    at: Place,
    operand: Operand,
) -> Result<Operand, TypeError>
    ensures { Gives view_operand (as_value (size_of_operand types.now at (view_operand operand))) result }
{
    Ok(Operand::Value(size_of_operand(alloc, types, at, operand)?))
}

/// `sizeof (type)`.
pub(crate) fn size_type(
    alloc: Global,
    types: &Types,
    at: Place,
    id: TypeId,
) -> Result<Operand, TypeError>
    ensures { Gives view_operand (as_value (size_number types.now at id)) result }
{
    Ok(Operand::Value(size_number(alloc, types, at, id)?))
}

/// `(type)e`.
pub(crate) fn cast_operand(
    alloc: Global,
    types: &Types,
    at: Place,
    id: TypeId,
    operand: Box<Rvalue>,
) -> Result<Operand, TypeError>
    ensures { Gives view_operand (as_value (cast_of types.now at id (view_right operand.value))) result }
{
    Ok(Operand::Value(cast(alloc, types, at, id, operand)?))
}

/// An operation on two values.
fn binary_of(
    alloc: Global,
    types: &Types,
    operator: BinaryOperator,
    at: Place,
    left: Box<Rvalue>,
    right: Box<Rvalue>,
) -> Result<Box<Rvalue>, OperandEnd>
    ensures { answers.Gives (λ it. view_right it.value) (binary_of operator types.now at (view_right left.value) (view_right right.value)) result }
{
    match operator {
        BinaryOperator::Multiply => {
            arithmetic(alloc, types, at, Arithmetic::Multiply, left, right)
        }
        BinaryOperator::Divide => arithmetic(alloc, types, at, Arithmetic::Divide, left, right),
        BinaryOperator::Remainder => {
            arithmetic(alloc, types, at, Arithmetic::Remainder, left, right)
        }
        BinaryOperator::Add => plus(alloc, types, at, left, right),
        BinaryOperator::Subtract => minus(alloc, types, at, left, right),
        BinaryOperator::ShiftLeft => {
            arithmetic(alloc, types, at, Arithmetic::ShiftLeft, left, right)
        }
        BinaryOperator::ShiftRight => {
            arithmetic(alloc, types, at, Arithmetic::ShiftRight, left, right)
        }
        BinaryOperator::Less => compared(alloc, types, at, Comparison::Less, left, right),
        BinaryOperator::Greater => compared(alloc, types, at, Comparison::Greater, left, right),
        BinaryOperator::LessEqual => {
            compared(alloc, types, at, Comparison::LessEqual, left, right)
        }
        BinaryOperator::GreaterEqual => {
            compared(alloc, types, at, Comparison::GreaterEqual, left, right)
        }
        BinaryOperator::Equal => compared(alloc, types, at, Comparison::Equal, left, right),
        BinaryOperator::NotEqual => compared(alloc, types, at, Comparison::NotEqual, left, right),
        BinaryOperator::BitAnd => arithmetic(alloc, types, at, Arithmetic::BitAnd, left, right),
        BinaryOperator::BitXor => arithmetic(alloc, types, at, Arithmetic::BitXor, left, right),
        BinaryOperator::BitOr => arithmetic(alloc, types, at, Arithmetic::BitOr, left, right),
        BinaryOperator::And => and(alloc, types, at, left, right),
        BinaryOperator::Or => or(alloc, types, at, left, right),
    }
}

/// An operation on two values, as an operand.
pub(crate) fn binary_operand(
    alloc: Global,
    types: &Types,
    operator: BinaryOperator,
    at: Place,
    left: Box<Rvalue>,
    right: Box<Rvalue>,
) -> Result<Operand, TypeError>
    ensures { Gives view_operand (as_value (binary_of operator types.now at (view_right left.value) (view_right right.value))) result }
{
    Ok(Operand::Value(binary_of(alloc, types, operator, at, left, right)?))
}

/// `c ? a : b`.
pub(crate) fn conditional_operand(
    alloc: Global,
    types: &Types,
    at: Place,
    test: Box<Rvalue>,
    then: Box<Rvalue>,
    otherwise: Box<Rvalue>,
) -> Result<Operand, TypeError>
    ensures { Gives view_operand (as_value (conditional_of types.now at (view_right test.value) (view_right then.value) (view_right otherwise.value))) result }
{
    Ok(Operand::Value(conditional(alloc, types, at, test, then, otherwise)?))
}

/// The operation of an assignment, or `None` for `=`.
fn operation_of_assignment(operator: AssignOperator) -> Option<Arithmetic>
    ensures { result ≡ operation_of_assignment operator }
{
    match operator {
        AssignOperator::Plain => None,
        AssignOperator::Multiply => Some(Arithmetic::Multiply),
        AssignOperator::Divide => Some(Arithmetic::Divide),
        AssignOperator::Remainder => Some(Arithmetic::Remainder),
        AssignOperator::Add => Some(Arithmetic::Add),
        AssignOperator::Subtract => Some(Arithmetic::Subtract),
        AssignOperator::ShiftLeft => Some(Arithmetic::ShiftLeft),
        AssignOperator::ShiftRight => Some(Arithmetic::ShiftRight),
        AssignOperator::BitAnd => Some(Arithmetic::BitAnd),
        AssignOperator::BitXor => Some(Arithmetic::BitXor),
        AssignOperator::BitOr => Some(Arithmetic::BitOr),
    }
}

/// `l = e` and `l op= e` of an object.
fn assigned_by(
    alloc: Global,
    types: &Types,
    operation: Option<Arithmetic>,
    at: Place,
    value: Box<Rvalue>,
    object: Box<Lvalue>,
) -> Result<Box<Rvalue>, OperandEnd>
    ensures { answers.Gives (λ it. view_right it.value) (assigned_by operation types.now at (view_right value.value) (view_left object.value)) result }
{
    match operation {
        None => assign(alloc, types, at, object, value),
        Some(operator) => update(alloc, types, at, operator, object, value),
    }
}

/// `l = e` and `l op= e`.
pub(crate) fn assignment_of(
    alloc: Global,
    types: &Types,
    operator: AssignOperator,
    at: Place,
    operand: Operand,
    value: Box<Rvalue>,
) -> Result<Operand, TypeError>
    ensures { Gives view_operand (assignment_of operator types.now at (view_operand operand) (view_right value.value)) result }
{
    let object = object_of(at, operand)?;
    let operation = operation_of_assignment(operator);
    Ok(Operand::Value(assigned_by(alloc, types, operation, at, value, object)?))
}

/// `a, b, c`.
pub(crate) fn comma_operand(
    alloc: Global,
    at: Place,
    lefts: Vec<Rvalue>,
    right: Box<Rvalue>,
) -> Result<Operand, NoMemory>
    ensures { IfOk result (λ it. view_operand it ≡ value (comma_of at (map view_right lefts.items) (view_right right.value))) }
{
    Ok(Operand::Value(hs_operands::comma(alloc, at, lefts, right)?))
}

/// A call of a routine, whose declaration must fit its role. The call is noted.
fn routine_call(
    alloc: Global,
    typer: &mut Typer,
    designator: Designator,
    routine: u32,
    its: CheckedCall,
) -> Result<Operand, TypeError>
    ensures { Steps view_operand typer.new (routine_call designator routine (view_called its) typer.old) result }
{
    let Designator { head, name, .. } = designator;
    let type_id = head.type_id;
    if !fits_role(&typer.types, typer.table.routines(), routine, type_id) {
        return Err(TypeError::Clash(head.at, name));
    }
    typer.calls.push(RoutineCall { routine, type_id })?;
    Ok(Operand::Value(call_routine(alloc, head.at, routine, its)?))
}

/// A call, bound to a function or a routine if it is evaluated.
fn call_with(
    alloc: Global,
    typer: &mut Typer,
    designator: Designator,
    its: CheckedCall,
) -> Result<Operand, TypeError>
    ensures { Steps view_operand typer.new (call_with designator (view_called its) typer.old) result }
{
    if typer.counts {
        return bound_call(alloc, typer, designator, its);
    }
    Ok(Operand::Value(call(alloc, designator.head.at, 0, its)?))
}

/// A call, bound to a function or a routine.
fn bound_call(
    alloc: Global,
    typer: &mut Typer,
    designator: Designator,
    its: CheckedCall,
) -> Result<Operand, TypeError>
    ensures { Steps view_operand typer.new (bound_call designator.bound designator (view_called its) typer.old) result }
{
    match designator.bound {
        Bound::Function(number) => Ok(Operand::Value(call(
            alloc,
            designator.head.at,
            number,
            its,
        )?)),
        Bound::Routine(number) => routine_call(alloc, typer, designator, number, its),
        Bound::Nothing => {
            let Designator { head, name, .. } = designator;
            Err(TypeError::UnknownRoutine(head.at, name))
        }
    }
}

/// A call (3.3.2.2).
pub(crate) fn call_operand(
    alloc: Global,
    typer: &mut Typer,
    callee: Operand,
    arguments: Vec<Rvalue>,
) -> Result<Operand, TypeError>
    ensures { Steps view_operand typer.new (call_operand (view_operand callee) (map view_right arguments.items) typer.old) result }
{
    match callee {
        Operand::Value(e) => Err(TypeError::Untyped(e.head().at)),
        Operand::Object(object) => Err(TypeError::Untyped(object.head().at)),
        Operand::Function(it) => {
            let its = called(alloc, &typer.types, it.head.at, it.head.type_id, arguments)?;
            call_with(alloc, typer, it, its)
        }
    }
}
