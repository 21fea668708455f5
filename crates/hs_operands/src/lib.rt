//! Operators on typed operands (X3.159-1989 3.3): the conversions that they ask for, and the typed expression that they make.
//! `specs/` has the definitions, one file a subject.
#![tactic(auto)]

mod assignments;
mod branches;
mod calls;
mod conversions;
mod laws;
mod objects;
mod operators;
mod pointers;
mod spacing;

pub use assignments::{assign, assigned, cast, one, post_update, update};
pub use branches::{comma, conditional};
pub use calls::{CheckedCall, call, call_routine, called};
pub use conversions::truth;
pub use laws::operators_are_typed;
pub use objects::{
    address, arrow, element_of, loaded, member, object_of, size_number, size_of_operand, target,
};
pub use operators::{and, arithmetic, not, or, unary};
pub use pointers::{compared, minus, plus};
