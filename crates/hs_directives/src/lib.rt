//! Preprocessing (X3.159-1989 3.8): the token lists of named files, with conditions, inclusion and macros. `specs/` has the
//! definition, a function from a listing of files; each file is read once and scanned once.
#![tactic(auto)]

mod condition;
mod conditionals;
mod define;
mod directive;
mod entry;
mod error;
mod file_tokens;
mod files_read;
mod found;
mod include;
mod included;
mod keyword;
mod lists;
mod macro_changes;
mod open_sections;
mod pieces;
mod section;
mod source;
mod sources;
mod state;
mod text;
mod unit;
mod walk;

pub use error::{MacroKind, ReadError, ScanKind};
pub use lists::{FileNumbers, SourceTokens, Texts, UnitTokens};
pub use macro_changes::{MacroChanges, UnitChanges};
pub use source::{MacroChange, Source};
pub use sources::preprocess;
