//! Must facts of a program: what is true before each operation on every control path from the start of its function. `specs/Answers.antt` says what
//! the answers mean.
#![tactic(auto)]

mod changing;
mod facts;
mod finding;
mod kept;
mod must_end;
mod table;
mod whole;

pub use must_end::MustEnd;
pub use table::Must;
pub use whole::must;
