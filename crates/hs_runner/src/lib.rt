//! Runs the code of typed programs on the machine. `specs/Runs.antt` says what a transcript shows of the program.
#![tactic(auto)]

mod runner;

pub use runner::run_code;
