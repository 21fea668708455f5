//! Lowering of typed programs: statements, functions and whole programs, over the expressions of `hs_lower_expressions`.
#![tactic(auto)]

mod branches;
mod loops;
mod lower_end;
mod lowering;
mod parts;
mod program;
mod statements;
mod text;

pub use lower_end::LowerEnd;
pub use program::lower;
