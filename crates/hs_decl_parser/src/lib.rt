//! Parsing of units (X3.159-1989 3.5 to 3.7): declarations, statements and external declarations. `specs/Reading.antt` has a rule for
//! each phrase; each function reads what its rule does, and `unit` is the grammar, both ways.
#![tactic(auto)]

mod ahead;
mod declarations;
mod externals;
mod initialisers;
mod labels;
mod laws;
mod names;
mod parse_error;
mod parts;
mod statements;
mod units;
mod words;

pub use laws::{syntax_has_one_place, units_are_unambiguous};
pub use parse_error::ParseError;
pub use units::unit;
