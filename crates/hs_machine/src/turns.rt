//! Turns, and why a run ends.

ghost use Rattle.std.specs.Prelude.{◌≡◌};
ghost use Rattle.hs_machine.specs.Programs.{TakesTurn, end_at, finishing};

use crate::runner::End;
use hs_base::Pos;
use hs_meaning::Outcome;
use hs_values::{Halt, Value};

/// Takes one turn. A run that has none left is spent.
pub(crate) fn take_turn(turns: &mut u64) -> Result<(), End>
    ensures { TakesTurn turns.old turns.new result }
{
    match turns.checked_sub(1) {
        Some(left) => {
            *turns = left;
            Ok(())
        }
        None => Err(End::Over(Outcome::TurnsSpent)),
    }
}

/// Why a run ends if the operation at that place does not give a value.
pub(crate) fn end_at(at: Pos, why: Halt) -> End
    ensures { result ≡ end_at at why }
{
    match why {
        Halt::Stopped(why) => End::Over(Outcome::Stopped(why, at)),
        Halt::NoMemory => End::NoMemory,
    }
}

/// How a run ends in which `main` returns that value.
pub(crate) fn finishing(value: &Value, at: Pos) -> Outcome
    ensures { result ≡ finishing value.now at }
{
    match value.bits() {
        Ok(bits) => Outcome::Finished(bits.cast_signed()),
        Err(why) => Outcome::Stopped(why, at),
    }
}
