//! A search over a graph whose steps may enter calls and leave them: all nodes that chains reach, and the length of a shortest chain to each.
#![tactic(auto)]

mod calls;
mod finding;
mod found;
mod graph;
mod hashing;
mod judging;
mod lists;
mod offering;
mod reach;
mod searching;
mod sorting;

pub use finding::search;
pub use found::{Found, Pair};
pub use graph::{Graph, Node};
pub use reach::SearchEnd;
