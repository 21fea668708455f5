//! The objects of a run: variables that are no slots, string literals, and what routines make. `specs/Objects.antt` has what a contract sees.
#![tactic(auto)]

mod object;
mod objects;

pub use object::{Object, Storage};
pub use objects::Objects;
