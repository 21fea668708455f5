//! The scalars of an object, one after the other. `specs/Left.antt` says what is left of them.
#![tactic(auto)]

mod pending;
mod scalar;
mod scalars;

pub use scalar::Scalar;
pub use scalars::Scalars;
