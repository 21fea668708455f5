//! From a table to its text.

ghost use Rattle.std.specs.Prelude.{◌≡◌, ◌≤◌, false, Ok, IsTrue, OnOk, IfOk};
ghost use Rattle.std.specs.List.{All};
ghost use Rattle.toml.specs.Data.{table};
ghost use Rattle.toml.specs.Text.{IsDocumentText};
ghost use Rattle.toml.specs.View.{view, table_view};
ghost use Rattle.hs_table.specs.Tables.{IsTable, is_right};
ghost use Rattle.hs_table_text.specs.Building.{insert_member, insert_number, insert_routine};
ghost use Rattle.hs_table_text.specs.Texts.{reading};
ghost use Rattle.hs_table_text.specs.Trees.{AreSmall, entry_tree, root_tree, routine_trees};

use crate::roles::role_name;
use hs_base::NoMemory;
use hs_table::{Routine, Table};
use std::alloc::Global;
use toml::Value;
use toml::ser::Error;

/// Puts the value under the key.
#[tactic(auto, using(crate::proofs::Inserting::members_view_insert))]
fn put(alloc: Global, members: &mut toml::Table, key: &str, value: Value) -> Result<(), NoMemory>
    ensures { OnOk result (table_view members.new ≡ insert_member key.now (view value) (table_view members.old)) }
{
    members.insert(String::from_str(alloc, key)?, value)?;
    Ok(())
}

/// Puts the number under the key, if it is not 0.
fn put_number(
    alloc: Global,
    members: &mut toml::Table,
    key: &str,
    number: u32,
) -> Result<(), NoMemory>
    ensures put { OnOk result (table_view members.new ≡ insert_number key.now number (table_view members.old)) }
    ensures small { number ≤ 4294967295 }
{
    if number == 0 {
        return Ok(());
    }
    put(alloc, members, key, Value::Integer(i64::from(number)))
}

/// The keys of a routine.
fn entry_table(alloc: Global, routine: &Routine) -> Result<toml::Table, NoMemory>
    ensures tree { IfOk result (λ keys. table_view keys ≡ entry_tree routine.now) }
    ensures small { OnOk result (routine.now.fills ≤ 4294967295) }
{
    let mut keys = toml::Table::new(alloc);
    put(
        alloc,
        &mut keys,
        "role",
        Value::string(alloc, role_name(routine.role))?,
    )?;
    put(alloc, &mut keys, "moves", Value::Boolean(routine.moves))?;
    put(alloc, &mut keys, "purges", Value::Boolean(routine.purges))?;
    put_number(alloc, &mut keys, "fills", routine.fills)?;
    put_number(alloc, &mut keys, "size", routine.size)?;
    Ok(keys)
}

/// The name of a routine as a text: an identifier is one.
fn name_of(routine: &Routine) -> &str
    requires { IsTrue (is_right routine.now) }
    ensures { result.now ≡ routine.now.name }
{
    str::from_utf8(routine.name.items()).unwrap()
}

/// Puts the routine under its name.
fn put_routine(alloc: Global, entries: &mut toml::Table, routine: &Routine) -> Result<(), NoMemory>
    requires { IsTrue (is_right routine.now) }
    ensures tree { OnOk result (table_view entries.new ≡ insert_routine routine.now (table_view entries.old)) }
    ensures small { OnOk result (routine.now.fills ≤ 4294967295) }
{
    let keys = entry_table(alloc, routine)?;
    put(alloc, entries, name_of(routine), Value::Table(keys))
}

/// The entries of the routines, each under its name. The last one is put first, so that each goes in front of the others.
fn routine_tables(alloc: Global, routines: &[Routine]) -> Result<toml::Table, NoMemory>
    requires { IsTable routines.now }
    ensures tree { IfOk result (λ entries. table_view entries ≡ routine_trees routines.now) }
    ensures small { OnOk result (AreSmall routines.now) }
{
    let mut entries = toml::Table::new(alloc);
    'routines: for routine in routines.iter().rev() {
        put_routine(alloc, &mut entries, routine)?;
    }
    Ok(entries)
}

/// The document.
fn document(alloc: Global, routines: &[Routine]) -> Result<toml::Table, NoMemory>
    requires { IsTable routines.now }
    ensures tree { IfOk result (λ root. table_view root ≡ root_tree routines.now) }
    ensures small { OnOk result (AreSmall routines.now) }
{
    let entries = routine_tables(alloc, routines)?;
    let mut root = toml::Table::new(alloc);
    put(alloc, &mut root, "version", Value::Integer(1))?;
    put(alloc, &mut root, "routine", Value::Table(entries))?;
    Ok(root)
}

/// Prints the text of a table, which `read` reads back to the same table.
///
/// Example: the table of the routine `HLock` alone, which locks a block and moves nothing, has `version = 1`, an empty line,
/// `[routine.HLock]`, and under it a line each for `moves`, `purges` and `role`.
///
/// # Errors
///
/// `NoMemory` if memory runs out.
pub fn print(alloc: Global, table: &Table) -> Result<Vec<u8>, NoMemory>
    ensures text { IfOk result (λ text. IsDocumentText false (root_tree table.now) text.items) }
    ensures reads_back { IfOk result (λ text. reading text.items ≡ Ok table.now) }
{
    let root = document(alloc, table.routines())?;
    match toml::table_to_string(alloc, &root) {
        Ok(text) => Ok(text.into_bytes()),
        Err(Error::OutOfMemory) => Err(NoMemory),
        Err(Error::DateInvalid) => unreachable!(),
    }
}
