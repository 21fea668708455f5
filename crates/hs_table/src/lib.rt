//! The table of routines: which routine of the Macintosh may move or purge memory. `specs/Tables.antt` says what a table is,
//! and has the built-in one.
#![tactic(auto)]

mod built_in_table;
mod role;
mod routine;
mod table;

pub use built_in_table::built_in;
pub use role::Role;
pub use routine::Routine;
pub use table::Table;
