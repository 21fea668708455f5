//! From the steps of its code to the safety of a program: a program is safe if no step of a run of its code tests an operand that is stale or purged.
//! `specs/Safety.antt` has the definitions and the laws. The crate is definitions and laws; its function does nothing.
#![tactic(auto)]

mod laws;

pub use laws::a_program_that_never_misuses_is_safe;
