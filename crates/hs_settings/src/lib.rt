//! What a run is given beside its sources: a table of routines, perhaps a script, and an input. `specs/Settings.antt` says what each answer means.
#![tactic(auto)]

mod parts;
mod reader;
mod settings;

pub use reader::read_settings;
pub use settings::{Settings, SettingsError};
