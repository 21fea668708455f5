//! What a run is given beside its sources, and why there is no such thing.

use hs_base::{Bytes, Limit};
use hs_meaning::Input;
use hs_movers::Script;
use hs_table::Table;

/// What a run is given beside its sources.
#[derive(Drop)]
pub struct Settings {
    /// Which routines there are, what they do, and which of them may move or purge memory.
    pub table: Table,
    /// The script, if the words name one.
    pub script: Option<Script>,
    /// The input. If the words name none, nothing is in it.
    pub input: Input,
}

/// Why a file gives no table, no script or no input.
#[derive(Drop)]
pub enum SettingsError {
    /// There is no file of that name.
    Missing(Bytes),
    /// The file of that name could not be read.
    Unread(Bytes),
    /// The file has more bytes than a file may have.
    Limit(Limit),
    /// The table is no TOML document.
    NotToml,
    /// The table's `version` is absent, or is not 1.
    BadVersion,
    /// A routine of the table, or a key of it, is wrong: its name.
    BadEntry(Bytes),
    /// The script is wrong: the number, from 1, of the first such line.
    BadScript(u32),
    /// The input is wrong: the number, from 1, of the first such line.
    BadInput(u32),
    /// Memory was refused.
    NoMemory,
}
