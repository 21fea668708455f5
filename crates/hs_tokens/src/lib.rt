//! The tokens of one text. `specs/` has the definition, phase by phase on whole lists; the scanner takes one part of the text
//! after another.
#![tactic(auto)]

mod characters;
mod cursor;
mod forms;
mod literals;
mod marks;
mod place;
mod scan_error;
mod scanner;
mod text;
mod token;

pub use marks::{is_identifier, is_mark, is_same_kind};
pub use place::Place;
pub use scan_error::ScanError;
pub use scanner::scan;
pub use text::Text;
pub use token::{Origin, SourceToken, Token, TokenKind};
