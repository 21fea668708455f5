//! Names with their places. `specs/Index.antt` has the definitions.
#![tactic(auto)]

mod index;

pub use index::Index;
