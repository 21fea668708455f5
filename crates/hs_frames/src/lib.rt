//! Calls of functions on the running machine: how they begin and end. `hs_meaning` has the definitions, in `specs/Frames.antt`.
#![tactic(auto)]

mod frames;
mod parameters;
mod room;
mod variables;

pub use frames::{close, open};
