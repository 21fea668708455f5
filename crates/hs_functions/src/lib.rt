//! Function definitions and translation units (X3.159-1989 3.7) as typed functions, or the first refusal. `specs/Functions.antt` and
//! `specs/Units.antt` have the definitions.
#![tactic(auto)]

mod declarators;
mod functions;
mod parameters;
mod units;

pub use units::functions_of;
