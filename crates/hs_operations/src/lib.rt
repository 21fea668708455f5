//! The operations of code that only take values from the stack of their call and leave others, on the running machine. `specs/Works.antt` says
//! what they do with the stack, and that this is the step of a run.
#![tactic(auto)]

mod dispatch;
mod in_hand;
mod laws;
mod numbers;
mod operate;
mod operators;
mod places;
mod stacks;
mod values;

pub use dispatch::work;
pub use in_hand::{step_by, take_loaded, take_stored, take_with};
pub use laws::operations_are_steps;
pub use numbers::{attempt, between, number_of, push_loaded, push_number, take_number};
