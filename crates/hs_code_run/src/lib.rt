//! The run of code: one operation after another, over the values and the machine of `hs_meaning`. `specs/Steps.antt` has the step of each operation, and
//! `specs/Runs.antt` the run. The crate is definitions and laws; its functions have no body.
#![tactic(auto)]

mod laws;

pub use laws::{a_run_stays_with_more_turns, only_shifts_move, runs_are_functions};
