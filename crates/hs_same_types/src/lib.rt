//! Which types of several units are one: each unit has types of its own, and the first of those that are one stands for all.
//! `specs/Representatives.antt` has the definition.
#![tactic(auto)]

mod structs;
mod types;

pub use types::representatives;
