//! Calls of functions along a run of code, and what a step may change. `specs/Calls.antt` has the calls of a run, `specs/Stacks.antt` the rule by which a
//! step keeps what holds of each of them, `specs/Changing.antt` what a step does to the blocks, `specs/CallsSince.antt` what a whole call does to them,
//! and `specs/Globals.antt` what a step does to globals.
//! The crate is definitions and laws; its functions have no body.
#![tactic(auto)]

mod laws;

pub use laws::{
    a_call_does_no_more_than_its_function, a_step_does_no_more_than_its_operation,
    a_step_sets_no_other_global,
};
