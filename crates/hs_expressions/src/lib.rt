//! What every expression is, as a typed tree, or the first refusal (X3.159-1989 3.3 and 3.5.2 to 3.5.5). `specs/Expressions.antt` has
//! the definition: one function by cases on the syntax, in steps that change what is known.
#![tactic(auto)]

mod expressions;
mod laws;
mod operations;
mod primaries;
mod roles;

pub use expressions::{derivations, expression, specifiers, value};
pub use laws::{
    operands_are_first, parentheses_change_nothing, typing_extends_what_is_known,
    what_is_typed_is_bound, what_is_typed_is_well_typed,
};
pub use primaries::string_bytes;
