//! What units leave at their end: the objects with their sizes, what the program takes the address of, and how its routines are
//! declared. `specs/Ends.antt` has the definitions.
#![tactic(auto)]

mod bytes;
mod ends;
mod objects;
mod routines;

pub use bytes::passes;
pub use ends::{taken_fields, taken_globals};
pub use objects::{globals_of, sized_globals};
pub use routines::{bound_routines, first_types};
