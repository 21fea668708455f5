//! Rows of bits that come down to a fixed point: a row for each operation of a function, from which bits are taken out until each operation makes what
//! the rows after it have. `specs/Cuts.antt` says what that means.
#![tactic(auto)]

mod maker;
mod solving;

pub use maker::Maker;
pub use solving::solve;
