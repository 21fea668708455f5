//! What branches of statements are made of (X3.159-1989 3.6): controlling expressions, values that are returned, and the labels of a switch.
//! `specs/Branches.antt` has the definitions.
#![tactic(auto)]

mod conditions;
mod labels;

pub use conditions::{condition, condition_if, returned, switched, valued, valued_if};
pub use labels::{CaseValues, Cases, all_labelled};
