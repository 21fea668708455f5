//! Movers, which decide what moves, and scripts, which are lists of their decisions. `specs/Movers.antt` says what a mover tells, and
//! `specs/ScriptTexts.antt` how a script is written.
#![tactic(auto)]

mod mover;
mod script;
mod script_text;
mod scripted;
mod seeded;
mod slide;
mod still;

pub use mover::{Mover, MoverCall};
pub use script::{Decisions, Script};
pub use script_text::{ScriptError, print_script, read_script};
pub use scripted::Scripted;
pub use seeded::Seeded;
pub use slide::Slide;
pub use still::Still;
