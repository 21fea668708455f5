//! What is known of a program at a place of its text, and what names with linkage refer to (X3.159-1989 3.1.2.2).
//! `specs/Linkage.antt` has the definition.
#![tactic(auto)]

mod definitions;
mod entities;
mod externals;
mod late;
mod linkage;
mod linking;
mod objects;
mod questions;
mod statics;
mod translator;

pub use definitions::{Definition, Definitions};
pub use externals::{External, Externals};
pub use late::{Late, mark_of, rechecked};
pub use linkage::{clash, link, new_object};
pub use linking::{completed_link, linked, may_name, renamed};
pub use objects::{Locals, Objects};
pub use questions::{designates, is_complete, is_function, is_open};
pub use translator::{Linked, StaticObject, Translator};
