//! The running machine before `main` is called. `hs_meaning` has the definitions, in `specs/Objects.antt`.
#![tactic(auto)]

mod bases;
mod cells;
mod objects;
mod starting;
mod variables;

pub use starting::{first_literal, start};
