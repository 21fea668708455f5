//! Why operands have no typed expression.

ghost use Rattle.std.specs.Prelude.{◌≡◌};
ghost use Rattle.hs_operand_types.specs.Answers.{no_memory};

use hs_base::NoMemory;
use hs_tokens::Place;
use std::alloc::AllocFailed;

/// Why operands have no typed expression.
#[derive(Clone, Copy)]
pub enum OperandEnd {
    /// An operand has a type that the operator does not take. At the operator.
    Untyped(Place),
    /// Memory ran out.
    NoMemory,
}

impl From<NoMemory> for OperandEnd {
    ghost from_gives = { λ _ e. e ≡ no_memory };

    fn from(_refused: NoMemory) -> OperandEnd {
        OperandEnd::NoMemory
    }
}

impl<T: Drop> From<AllocFailed<T>> for OperandEnd {
    ghost from_gives = { λ _ e. e ≡ no_memory };

    fn from(_refused: AllocFailed<T>) -> OperandEnd {
        OperandEnd::NoMemory
    }
}
