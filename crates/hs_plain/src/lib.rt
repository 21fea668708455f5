//! What plain routines do: those of the table that have no other role. `hs_meaning` has the definitions, in `specs/Plain.antt`.
#![tactic(auto)]

mod arguments;
mod line;
mod plain;
mod results;
mod targets;
mod types;
mod words;

pub use plain::call;
pub use types::number_kind;
