//! What a call of the program answers: the reports of a check and of a run, the text that is put for each, and the statuses that the
//! process ends with. `specs/Texts.antt` and `specs/Faults.antt` have the definitions.
#![tactic(auto)]

mod fault;
mod report;
mod run_report;
mod status;

pub use fault::{Fault, placed_by, typed_by};
pub use report::{Refusal, Report, no_memory_line, usage_line};
pub use run_report::{Ran, RunReport};
pub use status::Status;
