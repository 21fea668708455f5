//! Lists the classes of pointers that a typed program names. `hs_meaning/specs/Classes.antt` has the definition, and `specs/Naming.antt`
//! its parts.
#![tactic(auto)]

mod expressions;
mod objects;
mod program;
mod statements;
mod within;

pub use program::classes;
