//! The text that is put of a run: its output, its ending and its script. `specs/RunTexts.antt` has the form.
#![tactic(auto)]

mod printer;

pub use printer::print_run;
