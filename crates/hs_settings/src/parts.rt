//! What texts are: a table, a script, an input.

ghost use Rattle.std.specs.Prelude.{◌≡◌, ◌≤◌, length};
ghost use Rattle.hs_settings.specs.Settings.{Gives, table_error, table_in, script_in, input_in, no_input};

use crate::SettingsError;
use hs_base::{Bytes, Numbers};
use hs_meaning::{Input, InputError, Words, read_input};
use hs_movers::{Script, ScriptError, read_script};
use hs_table::Table;
use hs_table_text::TableError;
use std::alloc::Global;

/// Why a text is no table.
fn refused(error: TableError) -> SettingsError
    ensures { result ≡ table_error error }
{
    match error {
        TableError::NotToml => SettingsError::NotToml,
        TableError::BadVersion => SettingsError::BadVersion,
        TableError::BadEntry(name) => SettingsError::BadEntry(name),
        TableError::NoMemory => SettingsError::NoMemory,
    }
}

/// The table that a text is.
pub(crate) fn table_in(alloc: Global, text: &[u8]) -> Result<Table, SettingsError>
    ensures { Gives (table_in text.now) result }
{
    match hs_table_text::read(alloc, text) {
        Ok(table) => Ok(table),
        Err(error) => Err(refused(error)),
    }
}

/// The script that a text is.
pub(crate) fn script_in(alloc: Global, text: &[u8]) -> Result<Option<Script>, SettingsError>
    requires few { length text.now ≤ 4194304 }
    ensures { Gives (script_in text.now) result }
{
    match read_script(alloc, text) {
        Ok(script) => Ok(Some(script)),
        Err(ScriptError::BadScript(line)) => Err(SettingsError::BadScript(line)),
        Err(ScriptError::NoMemory) => Err(SettingsError::NoMemory),
    }
}

/// The input that a text is.
pub(crate) fn input_in(alloc: Global, text: &[u8]) -> Result<Input, SettingsError>
    requires few { length text.now ≤ 4194304 }
    ensures { Gives (input_in text.now) result }
{
    match read_input(alloc, text) {
        Ok(input) => Ok(input),
        Err(InputError::BadInput(line)) => Err(SettingsError::BadInput(line)),
        Err(InputError::NoMemory) => Err(SettingsError::NoMemory),
    }
}

/// An input with nothing in it. Takes no memory.
pub(crate) fn no_input(alloc: Global) -> Input
    ensures { result ≡ no_input }
{
    Input {
        bytes: Bytes::from_vec(Vec::new(alloc)),
        words: Words::from_vec(Vec::new(alloc)),
        refused: Numbers::from_vec(Vec::new(alloc)),
    }
}
