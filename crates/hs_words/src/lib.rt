//! The words of a call, read by the crate `clap`. `specs/Words.antt` states the commands, and what the words ask for.
#![tactic(auto)]

mod arguments;
mod check;
mod command;
mod numbers;
mod run;
mod values;
mod words;

pub use command::{Command, RunWords, WordsError};
pub use words::{check_takes_plain_names, command_of};
