//! From a text to the table.

ghost use Rattle.std.specs.Prelude.{◌≡◌, option_map, IfOk};
ghost use Rattle.toml.specs.View.{view, table_view};
ghost use Rattle.hs_table.specs.Tables.{IsTable};
ghost use Rattle.hs_table_text.specs.Answers.{Answers, IsDocument, written_at};
ghost use Rattle.hs_table_text.specs.Texts.{is_root_key, is_version, other_in, reading, routines_in, routines_of};

use crate::entry::{copied, entry, member};
use crate::error::TableError;
use hs_table::{Routine, Table};
use std::alloc::Global;
use toml::Value;

/// The document that the bytes are.
fn document(alloc: Global, bytes: &[u8]) -> Result<toml::Table, TableError>
    ensures { IsDocument bytes.now result }
{
    match toml::table_from_slice(alloc, bytes) {
        Ok(root) => Ok(root),
        Err(why) => {
            if why.is_memory() {
                Err(TableError::NoMemory)
            } else {
                Err(TableError::NotToml)
            }
        }
    }
}

/// Whether the version is the integer 1.
fn is_version(value: Option<&Value>) -> bool
    ensures { result ≡ is_version (written_at value.entry) }
{
    match value {
        None => false,
        Some(written) => written.as_integer() == Some(1),
    }
}

/// The routines of these entries, which TOML orders by their names.
fn routines(alloc: Global, entries: &toml::Table) -> Result<Vec<Routine>, TableError>
    ensures read { Answers (λ routines. routines.items) (routines_in (table_view entries.now)) result }
    ensures table { IfOk result (λ routines. IsTable routines.items) }
{
    let mut routines = Vec::with_capacity(alloc, entries.len())?;
    'entries: for (name, written) in entries.iter() {
        routines.push(entry(alloc, name.as_str(), written)?)?;
    }
    Ok(routines)
}

/// The routines of the document: none if it has no key `routine`.
fn routines_of(alloc: Global, value: Option<&Value>) -> Result<Vec<Routine>, TableError>
    ensures read { Answers (λ routines. routines.items) (routines_of (written_at value.entry)) result }
    ensures table { IfOk result (λ routines. IsTable routines.items) }
{
    let Some(written) = value else {
        return Ok(Vec::new(alloc));
    };
    match written.as_table() {
        None => Err(TableError::BadEntry(copied(alloc, "routine")?)),
        Some(entries) => routines(alloc, entries),
    }
}

/// Whether a document may have the key.
fn is_root_key(key: &str) -> bool
    ensures { result ≡ is_root_key key.now }
{
    key == "version" || key == "routine"
}

/// The first key that is neither `version` nor `routine`.
fn other_key(root: &toml::Table) -> Option<&str>
    ensures { option_map (λ key. key.now) result ≡ other_in (table_view root.now) }
{
    'keys: for (key, _written) in root.iter() {
        if !is_root_key(key.as_str()) {
            return Some(key.as_str());
        }
    }
    None
}

/// Reads the text of a table. The routines of the table ascend by name, whatever their order in the text.
///
/// Example: `version = 1`, and after it `routine.HLock.role = "lock"` on a line of its own, is the table of the routine
/// `HLock`, which locks a block and moves nothing.
///
/// # Errors
///
/// `TableError` says when each comes. If memory runs out, `NoMemory`.
pub fn read(alloc: Global, bytes: &[u8]) -> Result<Table, TableError>
    ensures { Answers (λ table. table) (reading bytes.now) result }
{
    let root = document(alloc, bytes)?;
    if !is_version(member(&root, "version")) {
        return Err(TableError::BadVersion);
    }
    let routines = routines_of(alloc, member(&root, "routine"))?;
    if let Some(key) = other_key(&root) {
        return Err(TableError::BadEntry(copied(alloc, key)?));
    }
    Ok(Table::from_vec(routines))
}
