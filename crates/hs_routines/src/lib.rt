//! Calls of the routines of the table, whatever their role is.
#![tactic(auto)]

mod routines;

pub use routines::{argument_count, call};
