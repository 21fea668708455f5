//! Least cuts of networks, each with a flow that shows that it is least. `specs/Networks.antt` says what a cut is,
//! `specs/Flows.antt` what fits it, `specs/Walks.antt` what stands in the way of a cut.
#![tactic(auto)]

mod augment;
mod cut;
mod distances;
mod graph;
mod least;
mod lists;
mod network;
mod obstacle;

pub use cut::{Cut, CutEnd};
pub use least::best_cut;
pub use lists::{CutEdges, Flow};
pub use network::{CutEdge, Network};
