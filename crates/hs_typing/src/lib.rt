//! Typed programs: what the units of a program come to with a table of routines, or the first refusal. `specs/Programs.antt` has the
//! definition.
#![tactic(auto)]

mod main_function;
mod program;

pub use program::{ProgramError, program_of};
