//! The facts that chains reach in a program, and its hazards. `specs/Routes.antt` has the graph whose ways are the chains of the program.
#![tactic(auto)]

mod building;
mod coding;
mod facts;
mod graph;
mod hazard;
mod hazard_list;
mod known;
mod nodes;
mod operations;
mod reached;
mod solving;
mod taint_end;
mod uses;

pub use hazard::{Hazard, HazardKind};
pub use hazard_list::hazards;
pub use reached::{Pair, Reached};
pub use solving::solve;
pub use taint_end::TaintEnd;
