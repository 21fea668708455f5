//! Spelling: the tokens of a tree of a unit, in the order of C's grammar (X3.159-1989 3.3 and 3.5 to 3.7).
//! `specs/Spelling.antt` says which tokens they are.
#![tactic(auto)]

mod declarations;
mod expressions;
mod pieces;
mod statements;
mod units;

pub use units::spell;
