//! Every pointer is tracked: a pointer into a block of the heap is current, or a chain of the analysis brings Stale to where it is; and a chain brings
//! Hollow to each handle of a purged block. `specs/Tracking.antt` says what that means, `specs/Passing.antt` how an operation keeps it, and the other
//! files go over the operations; `specs/Runs.antt` has the law of runs, and `specs/Misuses.antt` that a misuse is a hazard. The crate is definitions and
//! laws; its functions have no body.
#![tactic(auto)]

mod laws;

pub use laws::{
    a_misuse_is_a_hazard, a_program_without_hazards_misuses_nothing,
    values_are_tracked_in_every_run,
};
