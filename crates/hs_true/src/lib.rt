//! Must facts are true of every run, and what an exact table of effects denies does not happen. `specs/Runs.antt` has what that means and the laws,
//! `specs/Within.antt` goes over the operations, `specs/Facts.antt` has the fact that steps keep, and `specs/Exact.antt` what is asked of the table of
//! effects. The crate is definitions and laws; its functions have no body.
#![tactic(auto)]

mod laws;

pub use laws::{effects_are_true_of_every_run, must_facts_are_true_of_every_run};
