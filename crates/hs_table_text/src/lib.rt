//! The text of a table of routines, read and printed. `specs/Texts.antt` says what is read, `specs/Trees.antt` what is printed.
#![tactic(auto)]

mod entry;
mod error;
mod printer;
mod reader;
mod roles;

pub use error::TableError;
pub use printer::print;
pub use reader::read;
