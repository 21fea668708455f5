//! What waits for the value of an operand: operators, open parentheses, `?` and `:`.

ghost use Rattle.std.specs.Prelude.{◌≡◌, reverse};
ghost use Rattle.hs_constants.specs.Reading.{applied, settled};

use crate::arithmetic::{binary_value, chosen, unary_value};
use crate::operator::{Binary, Unary, precedence_of};
use crate::value::Value;

/// What waits for the value of an operand.
#[derive(Clone, Copy)]
pub(crate) enum Waiting {
    /// An open parenthesis.
    Group,
    /// An operator in front of its operand.
    Prefix(Unary),
    /// An operator between two, after this left operand.
    Infix(Value, Binary),
    /// The `?` after this test.
    Test(Value),
    /// The `:` after this test and this first branch.
    Branch(Value, Value),
}

/// What the value makes of the last thing that waits, if that binds as tightly as the precedence.
fn applied(last: Waiting, precedence: u32, value: Value) -> Option<Value>
    ensures { result ≡ applied last precedence value }
{
    match last {
        Waiting::Prefix(operator) => Some(unary_value(operator, value)),
        Waiting::Infix(left, operator) if precedence <= precedence_of(operator) => {
            Some(binary_value(operator, left, value))
        }
        Waiting::Branch(test, left) if precedence == 0 => Some(chosen(test, left, value)),
        _ => None,
    }
}

/// Gives the value to what waits, from the last on, as far as that binds as tightly as the precedence. The answer is the
/// value that comes of it, for which the others still wait.
pub(crate) fn settled(waiting: &mut Vec<Waiting>, precedence: u32, value: Value) -> Value
    ensures { record { waiting = reverse waiting.new.items; value = result }
        ≡ settled precedence (reverse waiting.old.items) value }
{
    let mut value = value;
    'waiting: while let Some((last, _)) = waiting.as_slice().split_last()
        && let Some(next) = applied(*last, precedence, value)
    {
        waiting.pop();
        value = next;
    }
    value
}
