//! From named files to the typed program that they are.
#![tactic(auto)]

mod source;

pub use source::{SourceError, read_program};
