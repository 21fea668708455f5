//! Macro definitions, and replacement with hide sets (X3.159-1989 3.8.3). `specs/` has the definition, as a recursion on
//! lists of tokens that each carry what they hide; the code keeps its own stack, so that no nesting is too deep for it.
#![tactic(auto)]

mod arguments;
mod budget;
mod call;
mod definition;
mod error;
mod expansion;
mod frame;
mod hide_set;
mod line;
mod macros;
mod pending;
mod placing;
mod slot;
mod table;

pub use budget::Budget;
pub use error::MacroError;
pub use macros::Macros;
