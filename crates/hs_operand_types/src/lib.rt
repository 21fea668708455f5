//! Operands before an operator is applied to them (X3.159-1989 3.2 and 3.4): what they are, questions about their types, and the
//! values of constant expressions. `specs/Operands.antt`, `specs/Types.antt` and `specs/Constants.antt` have the definitions.
#![tactic(auto)]

mod constants;
mod laws;
mod operand;
mod operand_end;
mod types;

pub use constants::{constant_value, is_null_constant};
pub use laws::constants_are_folded;
pub use operand::{Bound, Designator, Operand};
pub use operand_end::OperandEnd;
pub use types::{
    are_compatible, designates, element, is_accessible, is_complete, is_open, is_pointer,
    is_readable, is_scalar, is_void, number_kind, pointed,
};
