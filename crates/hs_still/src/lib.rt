//! The still machine beside a moving one: a map that sets every epoch to 0, takes purged blocks for present ones, and empties the schedule.
//! `specs/Machines.antt` has the map, `specs/Tests.antt` the operands that operations test for being stale or purged, `specs/Steps.antt` the law of a
//! step, and `specs/Runs.antt` that of a run. The crate is definitions and laws; its functions have no body.
#![tactic(auto)]

mod laws;

pub use laws::{
    a_run_is_the_run_without_a_schedule, a_step_does_the_same_on_the_still_machine,
    a_step_that_tests_nothing_asks_nothing, an_operation_that_tests_nothing_asks_nothing,
    no_decision_changes_the_still_state, such_a_run_ends_in_no_misuse,
};
