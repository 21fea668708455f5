//! Operations on numbers of 32 bits (X3.159-1989 3.3.3.3, 3.3.5 to 3.3.12).

ghost use Rattle.std.specs.Prelude.{◌≡◌, ◌&&◌, ◌==◌};
ghost use Rattle.hs_constants.specs.Arithmetic.{binary_value, is_less, shifted_right};
ghost use Rattle.hs_constants.specs.Conditions.{plain};
ghost use Rattle.hs_meaning.specs.Numbers.{answer_of, arithmetic_of, divides, sign_of};
ghost use Rattle.hs_meaning.specs.Stops.{stops_if};
ghost use Rattle.hs_meaning.specs.declared.outcome.Stop.TheVariants as stop;
ghost use Rattle.hs_values.specs.Answers.{or_stop};

use hs_constants::{Binary, Value, binary_value};
use hs_meaning::Stop;
use hs_tree::{Arithmetic, Comparison, Unary};
use hs_types::Integer;

/// What an operator in front of a number gives (3.3.3.3).
pub fn signed(operator: Unary, bits: u32) -> u32
    ensures { result ≡ sign_of operator bits }
{
    match operator {
        Unary::Plus => bits,
        Unary::Minus => 0u32.wrapping_sub(bits),
        Unary::Complement => !bits,
    }
}

/// What the operator gives in a constant expression; division is the same there.
fn constant_bits(operator: Binary, unsigned: bool, a: u32, b: u32) -> u32
    ensures { result ≡ (binary_value operator (plain a unsigned) (plain b unsigned)).bits }
{
    let left = Value {
        bits: a,
        unsigned,
        fails: false,
    };
    let right = Value { bits: b, ..left };
    binary_value(operator, left, right).bits
}

/// The bits shifted to the right by the low five bits of the count; a signed number keeps its sign (3.3.7).
#[inline(always)]
fn shifted_right(unsigned: bool, bits: u32, count: u32) -> u32
    ensures { result ≡ shifted_right unsigned bits count }
{
    if unsigned || bits < 0x8000_0000 {
        bits.wrapping_shr(count)
    } else {
        !(!bits).wrapping_shr(count)
    }
}

/// What an operator between two numbers of that type gives.
///
/// Example: `-7 / 2` is -3.
///
/// # Errors
///
/// `Divide` for a division by 0.
#[inline(always)]
pub fn arithmetic(operator: Arithmetic, kind: Integer, a: u32, b: u32) -> Result<u32, Stop>
    ensures { result ≡ or_stop (stops_if (divides operator && (b == 0)) stop.Divide) (arithmetic_of operator kind a b) }
{
    match operator {
        Arithmetic::Multiply => Ok(a.wrapping_mul(b)),
        Arithmetic::Add => Ok(a.wrapping_add(b)),
        Arithmetic::Subtract => Ok(a.wrapping_sub(b)),
        Arithmetic::ShiftLeft => Ok(a.wrapping_shl(b)),
        Arithmetic::ShiftRight => Ok(shifted_right(!kind.is_signed(), a, b)),
        Arithmetic::BitAnd => Ok(a & b),
        Arithmetic::BitXor => Ok(a ^ b),
        Arithmetic::BitOr => Ok(a | b),
        Arithmetic::Divide | Arithmetic::Remainder if b == 0 => Err(Stop::Divide),
        Arithmetic::Divide => Ok(constant_bits(Binary::Divide, !kind.is_signed(), a, b)),
        Arithmetic::Remainder => Ok(constant_bits(Binary::Remainder, !kind.is_signed(), a, b)),
    }
}

/// Whether the first number is the lesser one (3.3.8).
#[inline(always)]
fn is_less(unsigned: bool, a: u32, b: u32) -> bool
    ensures { result ≡ is_less unsigned a b }
{
    if unsigned {
        a < b
    } else {
        a.wrapping_add(0x8000_0000) < b.wrapping_add(0x8000_0000)
    }
}

/// What a comparison of two numbers of that type answers (3.3.8 and 3.3.9).
#[inline(always)]
pub fn compared(operator: Comparison, kind: Integer, a: u32, b: u32) -> bool
    ensures { result ≡ answer_of operator kind a b }
{
    let unsigned = !kind.is_signed();
    match operator {
        Comparison::Less => is_less(unsigned, a, b),
        Comparison::Greater => is_less(unsigned, b, a),
        Comparison::LessEqual => !is_less(unsigned, b, a),
        Comparison::GreaterEqual => !is_less(unsigned, a, b),
        Comparison::Equal => a == b,
        Comparison::NotEqual => a != b,
    }
}
