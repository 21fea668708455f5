//! Rows of sets of numbers, as bits in words. `specs/Sets.antt` says what a contract sees.
#![tactic(auto)]

mod rows;

pub use rows::Rows;
