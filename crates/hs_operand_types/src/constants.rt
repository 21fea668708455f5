//! Constant expressions and null pointer constants.

ghost use Rattle.std.specs.Prelude.{◌≡◌};
ghost use Rattle.hs_operand_types.specs.Constants.{folded_unary, folded_arithmetic, folded_comparison, constant_value, is_nil, is_cast_to_void, is_null_constant, points_to_void};
ghost use Rattle.hs_tree.specs.Kinds.{pointed};
ghost use Rattle.hs_tree.specs.Views.{view_right};

use crate::types::{is_void, number_kind, pointed};
use hs_constants::{Binary, Value, binary_value, chosen, unary_value};
use hs_tree::{Arithmetic, Comparison, Rvalue, Unary};
use hs_types::{Integer, TypeId, Types};

/// The operator of constants that an operator in front of a number is.
fn folded_unary(operator: Unary) -> hs_constants::Unary
    ensures { result ≡ folded_unary operator }
{
    match operator {
        Unary::Plus => hs_constants::Unary::Plus,
        Unary::Minus => hs_constants::Unary::Minus,
        Unary::Complement => hs_constants::Unary::Complement,
    }
}

/// The operator of constants that an operation is.
fn folded_arithmetic(operator: Arithmetic) -> Binary
    ensures { result ≡ folded_arithmetic operator }
{
    match operator {
        Arithmetic::Multiply => Binary::Multiply,
        Arithmetic::Divide => Binary::Divide,
        Arithmetic::Remainder => Binary::Remainder,
        Arithmetic::Add => Binary::Add,
        Arithmetic::Subtract => Binary::Subtract,
        Arithmetic::ShiftLeft => Binary::ShiftLeft,
        Arithmetic::ShiftRight => Binary::ShiftRight,
        Arithmetic::BitAnd => Binary::BitAnd,
        Arithmetic::BitXor => Binary::BitXor,
        Arithmetic::BitOr => Binary::BitOr,
    }
}

/// The operator of constants that a comparison is.
fn folded_comparison(operator: Comparison) -> Binary
    ensures { result ≡ folded_comparison operator }
{
    match operator {
        Comparison::Less => Binary::Less,
        Comparison::Greater => Binary::Greater,
        Comparison::LessEqual => Binary::LessEqual,
        Comparison::GreaterEqual => Binary::GreaterEqual,
        Comparison::Equal => Binary::Equal,
        Comparison::NotEqual => Binary::NotEqual,
    }
}

/// Returns the value of an integral constant expression (X3.159-1989 3.4), or `None` if the expression is not one. The
/// value says whether its evaluation divides by 0.
///
/// Example: 6 for `2 * 3`, and `None` for `x` and for `(char *)0`.
pub fn constant_value(types: &Types, e: &Rvalue) -> Option<Value>
    ensures { result ≡ constant_value types.now (view_right e.now) }
{
    match e {
        Rvalue::Number { head, bits } => {
            let kind = number_kind(types, head.type_id)?;
            Some(Value {
                bits: *bits,
                unsigned: !kind.is_signed(),
                fails: false,
            })
        }
        Rvalue::Cast { head, operand } => {
            let value = constant_value(types, operand)?;
            number_kind(types, head.type_id)?;
            Some(value)
        }
        Rvalue::ConvertNumber { kind, operand, .. } => {
            let value = constant_value(types, operand)?;
            Some(Value {
                bits: kind.converted(value.bits),
                unsigned: !kind.is_signed(),
                fails: value.fails,
            })
        }
        Rvalue::Unary {
            operator,
            operand,
            ..
        } => {
            let value = constant_value(types, operand)?;
            Some(unary_value(folded_unary(*operator), value))
        }
        Rvalue::Not { operand, .. } => {
            let value = constant_value(types, operand)?;
            Some(unary_value(hs_constants::Unary::Not, value))
        }
        Rvalue::Arithmetic {
            operator,
            left,
            right,
            ..
        } => {
            let left = constant_value(types, left)?;
            let right = constant_value(types, right)?;
            Some(binary_value(folded_arithmetic(*operator), left, right))
        }
        Rvalue::Comparison {
            operator,
            left,
            right,
            ..
        } => {
            let left = constant_value(types, left)?;
            let right = constant_value(types, right)?;
            Some(binary_value(folded_comparison(*operator), left, right))
        }
        Rvalue::And { left, right, .. } => {
            let left = constant_value(types, left)?;
            let right = constant_value(types, right)?;
            Some(binary_value(Binary::And, left, right))
        }
        Rvalue::Or { left, right, .. } => {
            let left = constant_value(types, left)?;
            let right = constant_value(types, right)?;
            Some(binary_value(Binary::Or, left, right))
        }
        Rvalue::Conditional {
            test,
            then,
            otherwise,
            ..
        } => {
            let test = constant_value(types, test)?;
            let then = constant_value(types, then)?;
            let otherwise = constant_value(types, otherwise)?;
            Some(chosen(test, then, otherwise))
        }
        Rvalue::Nil { .. }
        | Rvalue::Load { .. }
        | Rvalue::Decay { .. }
        | Rvalue::Address { .. }
        | Rvalue::ConvertPointer { .. }
        | Rvalue::ComparePointers { .. }
        | Rvalue::IsNil { .. }
        | Rvalue::Step { .. }
        | Rvalue::Difference { .. }
        | Rvalue::Comma { .. }
        | Rvalue::Assign { .. }
        | Rvalue::Update { .. }
        | Rvalue::Advance { .. }
        | Rvalue::PostUpdate { .. }
        | Rvalue::PostAdvance { .. }
        | Rvalue::Call { .. }
        | Rvalue::CallRoutine { .. } => None,
    }
}

/// Whether an expression is the null pointer itself.
fn is_nil(e: &Rvalue) -> bool
    ensures { result ≡ is_nil (view_right e.now) }
{
    match e {
        Rvalue::Nil { .. } => true,
        Rvalue::Number { .. }
        | Rvalue::Load { .. }
        | Rvalue::Decay { .. }
        | Rvalue::Address { .. }
        | Rvalue::Cast { .. }
        | Rvalue::ConvertNumber { .. }
        | Rvalue::ConvertPointer { .. }
        | Rvalue::Unary { .. }
        | Rvalue::Not { .. }
        | Rvalue::Arithmetic { .. }
        | Rvalue::Comparison { .. }
        | Rvalue::ComparePointers { .. }
        | Rvalue::IsNil { .. }
        | Rvalue::Step { .. }
        | Rvalue::Difference { .. }
        | Rvalue::And { .. }
        | Rvalue::Or { .. }
        | Rvalue::Conditional { .. }
        | Rvalue::Comma { .. }
        | Rvalue::Assign { .. }
        | Rvalue::Update { .. }
        | Rvalue::Advance { .. }
        | Rvalue::PostUpdate { .. }
        | Rvalue::PostAdvance { .. }
        | Rvalue::Call { .. }
        | Rvalue::CallRoutine { .. } => false,
    }
}

/// Whether a type is a pointer to `void`.
fn points_to_void(types: &Types, id: TypeId) -> bool
    ensures { result ≡ points_to_void types.now (pointed types.now id) }
{
    match pointed(types, id) {
        Some(of) => is_void(types, of),
        None => false,
    }
}

/// Whether an expression is the null pointer cast to `void *`.
fn is_cast_to_void(types: &Types, e: &Rvalue) -> bool
    ensures { result ≡ is_cast_to_void types.now (view_right e.now) }
{
    match e {
        Rvalue::Cast { head, operand } => points_to_void(types, head.type_id) && is_nil(operand),
        Rvalue::Nil { .. }
        | Rvalue::Number { .. }
        | Rvalue::Load { .. }
        | Rvalue::Decay { .. }
        | Rvalue::Address { .. }
        | Rvalue::ConvertNumber { .. }
        | Rvalue::ConvertPointer { .. }
        | Rvalue::Unary { .. }
        | Rvalue::Not { .. }
        | Rvalue::Arithmetic { .. }
        | Rvalue::Comparison { .. }
        | Rvalue::ComparePointers { .. }
        | Rvalue::IsNil { .. }
        | Rvalue::Step { .. }
        | Rvalue::Difference { .. }
        | Rvalue::And { .. }
        | Rvalue::Or { .. }
        | Rvalue::Conditional { .. }
        | Rvalue::Comma { .. }
        | Rvalue::Assign { .. }
        | Rvalue::Update { .. }
        | Rvalue::Advance { .. }
        | Rvalue::PostUpdate { .. }
        | Rvalue::PostAdvance { .. }
        | Rvalue::Call { .. }
        | Rvalue::CallRoutine { .. } => false,
    }
}

/// Whether a value is the constant 0, with nothing in it divided by 0.
fn is_zero(value: Option<Value>) -> bool
    ensures { result ≡ Rattle.hs_operand_types.specs.Constants.is_zero value }
{
    match value {
        Some(value) => value.bits == 0 && !value.fails,
        None => false,
    }
}

/// Whether an expression is a null pointer constant (3.2.2.3): an integral constant expression of value 0, or one that is cast to
/// `void *`.
///
/// Example: `0` and `(void *)(1 - 1)` are, but `(char *)0` is not.
pub fn is_null_constant(types: &Types, e: &Rvalue) -> bool
    ensures { result ≡ is_null_constant types.now (view_right e.now) }
{
    is_zero(constant_value(types, e)) || is_cast_to_void(types, e)
}
