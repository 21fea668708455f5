//! The arithmetic of long and unsigned long, on 32 bits (X3.159-1989 3.3.3 to 3.3.15).

ghost use Rattle.std.specs.Prelude.{◌≡◌};
ghost use Rattle.hs_constants.specs.Arithmetic.{negated, is_negative, size_of, signed, quotient, remainder};
ghost use Rattle.hs_constants.specs.Arithmetic.{shifted_right, is_less, is_true, truth, either_fails, common, divided};
ghost use Rattle.hs_constants.specs.Arithmetic.{unary_value, binary_value, chosen};

use crate::operator::{Binary, Unary};
use crate::value::Value;

/// The lowest number of type long, as bits.
const LOWEST: u32 = 0x8000_0000;

/// Whether a signed number is below 0.
fn is_negative(bits: u32) -> bool
    ensures { result ≡ is_negative bits }
{
    bits >= LOWEST
}

/// The bits of the negative number.
fn negated(bits: u32) -> u32
    ensures { result ≡ negated bits }
{
    0u32.wrapping_sub(bits)
}

/// The size of a signed number.
fn magnitude(bits: u32) -> u32
    ensures { result ≡ size_of bits }
{
    if is_negative(bits) {
        negated(bits)
    } else {
        bits
    }
}

/// The bits of a number of that size, below 0 or not.
fn signed(negative: bool, size: u32) -> u32
    ensures { result ≡ signed negative size }
{
    if negative { negated(size) } else { size }
}

/// The quotient toward 0; 0 if the divisor is (X3.159-1989 3.3.5).
fn quotient(unsigned: bool, left: u32, right: u32) -> u32
    ensures { result ≡ quotient unsigned left right }
{
    if right == 0 {
        0
    } else if unsigned {
        left / right
    } else {
        let negative = is_negative(left) != is_negative(right);
        signed(negative, magnitude(left) / magnitude(right))
    }
}

/// The remainder, with the sign of what is divided (X3.159-1989 3.3.5).
fn remainder(unsigned: bool, left: u32, right: u32) -> u32
    ensures { result ≡ remainder unsigned left right }
{
    if right == 0 {
        0
    } else if unsigned {
        left % right
    } else {
        signed(is_negative(left), magnitude(left) % magnitude(right))
    }
}

/// The bits shifted to the right by the low five bits of the count; a signed number keeps its sign
/// (X3.159-1989 3.3.7).
fn shifted_right(unsigned: bool, bits: u32, count: u32) -> u32
    ensures { result ≡ shifted_right unsigned bits count }
{
    if !unsigned && is_negative(bits) {
        !(!bits).wrapping_shr(count)
    } else {
        bits.wrapping_shr(count)
    }
}

/// Whether the left number is the lesser one in the common type (X3.159-1989 3.3.8).
fn is_less(unsigned: bool, left: u32, right: u32) -> bool
    ensures { result ≡ is_less unsigned left right }
{
    if unsigned {
        left < right
    } else {
        left.wrapping_add(LOWEST) < right.wrapping_add(LOWEST)
    }
}

/// Whether the value is another than 0.
fn is_true(value: Value) -> bool
    ensures { result ≡ is_true value }
{
    value.bits != 0
}

/// 1 or 0, of type long.
fn truth(fails: bool, answer: bool) -> Value
    ensures { result ≡ truth fails answer }
{
    Value {
        bits: answer as u32,
        unsigned: false,
        fails,
    }
}

/// Whether one of the two fails.
fn either_fails(left: Value, right: Value) -> bool
    ensures { result ≡ either_fails left right }
{
    left.fails || right.fails
}

/// A value with these bits, of the common type of the two (X3.159-1989 3.2.1.5).
fn common(left: Value, right: Value, bits: u32) -> Value
    ensures { result ≡ common left right (λ unsigned. bits) }
{
    Value {
        bits,
        unsigned: left.unsigned || right.unsigned,
        fails: either_fails(left, right),
    }
}

/// The same, if a divisor of 0 fails.
fn divided(left: Value, right: Value, bits: u32) -> Value
    ensures { result ≡ divided left right (λ unsigned. bits) }
{
    Value {
        bits,
        unsigned: left.unsigned || right.unsigned,
        fails: either_fails(left, right) || right.bits == 0,
    }
}

/// What an operator in front makes of its operand (X3.159-1989 3.3.3.3).
///
/// Example: `-1` has the bits 0xFFFFFFFF, and `!1` is 0.
pub fn unary_value(operator: Unary, value: Value) -> Value
    ensures { result ≡ unary_value operator value }
{
    match operator {
        Unary::Plus => value,
        Unary::Minus => Value {
            bits: negated(value.bits),
            ..value
        },
        Unary::Complement => Value {
            bits: !value.bits,
            ..value
        },
        Unary::Not => truth(value.fails, !is_true(value)),
    }
}

/// What an operator between two makes of its operands (X3.159-1989 3.3.5 to 3.3.14).
///
/// Example: `-7 / 2` is -3, and `1 / 0` fails.
pub fn binary_value(operator: Binary, left: Value, right: Value) -> Value
    ensures { result ≡ binary_value operator left right }
{
    let unsigned = left.unsigned || right.unsigned;
    let either = either_fails(left, right);
    match operator {
        Binary::Multiply => common(left, right, left.bits.wrapping_mul(right.bits)),
        Binary::Divide => divided(left, right, quotient(unsigned, left.bits, right.bits)),
        Binary::Remainder => divided(left, right, remainder(unsigned, left.bits, right.bits)),
        Binary::Add => common(left, right, left.bits.wrapping_add(right.bits)),
        Binary::Subtract => common(left, right, left.bits.wrapping_sub(right.bits)),
        Binary::ShiftLeft => Value {
            bits: left.bits.wrapping_shl(right.bits),
            fails: either,
            ..left
        },
        Binary::ShiftRight => Value {
            bits: shifted_right(left.unsigned, left.bits, right.bits),
            fails: either,
            ..left
        },
        Binary::Less => truth(either, is_less(unsigned, left.bits, right.bits)),
        Binary::Greater => truth(either, is_less(unsigned, right.bits, left.bits)),
        Binary::LessEqual => truth(either, !is_less(unsigned, right.bits, left.bits)),
        Binary::GreaterEqual => truth(either, !is_less(unsigned, left.bits, right.bits)),
        Binary::Equal => truth(either, left.bits == right.bits),
        Binary::NotEqual => truth(either, left.bits != right.bits),
        Binary::BitAnd => common(left, right, left.bits & right.bits),
        Binary::BitXor => common(left, right, left.bits ^ right.bits),
        Binary::BitOr => common(left, right, left.bits | right.bits),
        Binary::And => truth(
            left.fails || (is_true(left) && right.fails),
            is_true(left) && is_true(right),
        ),
        Binary::Or => truth(
            left.fails || (!is_true(left) && right.fails),
            is_true(left) || is_true(right),
        ),
    }
}

/// What the test chooses; both branches give the type (X3.159-1989 3.3.15).
///
/// Example: `0 ? 1u : 2` is 2, and unsigned.
pub fn chosen(test: Value, left: Value, right: Value) -> Value
    ensures { result ≡ chosen test left right }
{
    let branch = if is_true(test) { left } else { right };
    Value {
        bits: branch.bits,
        unsigned: left.unsigned || right.unsigned,
        fails: test.fails || branch.fails,
    }
}
