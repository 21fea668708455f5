//! Statements (X3.159-1989 3.6) as typed statements, or the first refusal. `specs/Statements.antt` has the definition.
#![tactic(auto)]

mod held;
mod setting;
mod statements;

pub use statements::body;
