//! The machine: it runs the code of a program, on a heap that moves as a mover decides, and records the decisions. `specs/Transcripts.antt` says
//! what a transcript shows.
#![tactic(auto)]

mod calls;
mod control;
mod execution;
mod hurry;
mod laws;
mod loaded;
mod recorder;
mod runner;
mod running;
mod shifts;
mod steps;
mod switches;
mod transcript;
mod turns;

pub use execution::execute;
pub use laws::{limits_exclude_each_other, told_runs_are_one};
pub use transcript::{MachineEnd, Transcript};
