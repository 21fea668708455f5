//! Lists on top of one another, in one `Vec`: the stacks and the variables of calls. `specs/Layers.antt` says what a contract sees.
#![tactic(auto)]

mod layers;

pub use layers::Layers;
