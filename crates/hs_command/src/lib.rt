//! All that the program does: it reads the words and the files, judges the files or runs them, and puts one text. The program `handlecheck` hands
//! it the words, the files of the system, standard output and the movers.
#![tactic(auto)]

mod command;
mod file_names;
mod judge;
mod laws;
mod named_files;
mod reading;
mod running;

pub use command::{refuse_memory, run};
pub use laws::told_runs_print_the_same;
