//! What objects start with (X3.159-1989 3.5.7): constants for the scalars of an object, and the values of automatic objects.
//! `specs/Initialisers.antt` has the definition.
#![tactic(auto)]

mod inline;
mod lists;
mod objects;
mod parts;
mod texts;

pub use inline::inline_words;
pub use objects::{initialised, starting};
