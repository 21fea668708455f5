//! One routine of the text.

ghost use Rattle.std.specs.Prelude.{◌≡◌, option_map, IfOk};
ghost use Rattle.std.specs.List.{list_all};
ghost use Rattle.hs_base.specs.Text.{is_word_byte};
ghost use Rattle.toml.specs.Data.{get_member};
ghost use Rattle.toml.specs.View.{view, table_view};
ghost use Rattle.hs_table.specs.Tables.{begins_with_letter, is_identifier, is_plain};
ghost use Rattle.hs_table_text.specs.Answers.{IsEntry, routine_of, written_at};
ghost use Rattle.hs_table_text.specs.Entries.{flag_in, number_in, plain_number, role_in, is_known_key, are_known_keys, entry_of, routine_with};

use crate::error::TableError;
use crate::roles::role_named;
use hs_base::{Bytes, NoMemory, is_letter, is_word_byte};
use hs_table::{Role, Routine};
use std::alloc::Global;
use toml::{Table, Value};

/// The value of a key.
pub(crate) fn member<'a>(table: &'a Table, key: &str) -> Option<&'a Value>
    ensures { option_map (λ value. view value.now) result ≡ get_member key.now (table_view table.now) }
{
    table.get(key)
}

/// The Boolean of a key: false if the key is absent.
fn flag(value: Option<&Value>) -> Option<bool>
    ensures { result ≡ flag_in (written_at value.entry) }
{
    match value {
        None => Some(false),
        Some(written) => written.as_bool(),
    }
}

/// The number of a key that only a plain routine has: 0 if the key is absent.
fn plain_number(plain: bool, most: u32, value: Option<&Value>) -> Option<u32>
    ensures { result ≡ plain_number plain most (written_at value.entry) }
{
    let Some(written) = value else {
        return Some(0);
    };
    if !plain {
        return None;
    }
    number(most, written.as_integer()?)
}

/// The integer, if it is from 1 to the most.
fn number(most: u32, written: i64) -> Option<u32>
    ensures { result ≡ number_in most written }
{
    if written >= 1 && written <= i64::from(most) {
        Some(written as u32)
    } else {
        None
    }
}

/// The role that the value names.
fn role(value: Option<&Value>) -> Option<Role>
    ensures { result ≡ role_in (written_at value.entry) }
{
    role_named(value?.as_str()?)
}

/// Whether the role is that of a routine that has no other role.
fn is_plain(role: Role) -> bool
    ensures { result ≡ is_plain role }
{
    role == Role::Plain
}

/// Whether a routine of that role may have the key.
fn is_known_key(role: Role, key: &str) -> bool
    ensures { result ≡ is_known_key role key.now }
{
    let of_every_role = key == "role" || key == "moves" || key == "purges";
    of_every_role || is_plain(role) && (key == "fills" || key == "size")
}

/// Whether a routine of that role may have each of the keys.
fn are_known_keys(role: Role, keys: &Table) -> bool
    ensures { result ≡ are_known_keys role (table_view keys.now) }
{
    'keys: for (key, _written) in keys.iter() {
        if !is_known_key(role, key.as_str()) {
            return false;
        }
    }
    true
}

/// Whether the first byte is a letter.
fn begins_with_letter(name: &[u8]) -> bool
    ensures { result ≡ begins_with_letter name.now }
{
    match name.first() {
        None => false,
        Some(first) => is_letter(*first),
    }
}

/// Whether each byte is one of words.
fn are_word_bytes(name: &[u8]) -> bool
    ensures { result ≡ list_all is_word_byte name.now }
{
    name.iter().all(|byte| is_word_byte(*byte))
}

/// Whether the name is an identifier; a keyword is one too.
fn is_identifier(name: &[u8]) -> bool
    ensures { result ≡ is_identifier name.now }
{
    begins_with_letter(name) && are_word_bytes(name)
}

/// What the keys of a routine say.
#[derive(Clone, Copy)]
struct EntryKeys {
    role: Role,
    moves: bool,
    purges: bool,
    fills: u32,
    size: u32,
}

/// What the keys of the routine of that name say, if name and keys are right.
fn entry_keys(name: &str, written: &Value) -> Option<EntryKeys>
    ensures { option_map (routine_of name.now) result ≡ entry_of name.now (view written.now) }
{
    let keys = written.as_table()?;
    let role = role(member(keys, "role"))?;
    let moves = flag(member(keys, "moves"))?;
    let purges = flag(member(keys, "purges"))?;
    let plain = is_plain(role);
    let fills = plain_number(plain, u32::MAX, member(keys, "fills"))?;
    let size = plain_number(plain, 65_536, member(keys, "size"))?;
    if is_identifier(name.as_bytes()) && are_known_keys(role, keys) {
        Some(EntryKeys {
            role,
            moves,
            purges,
            fills,
            size,
        })
    } else {
        None
    }
}

/// A copy of the bytes.
pub(crate) fn copied(alloc: Global, text: &str) -> Result<Bytes, NoMemory>
    ensures { IfOk result (λ bytes. bytes ≡ text.now) }
{
    Ok(Bytes::from_vec(text.as_bytes().to_vec(alloc)?))
}

/// The routine of that name, or `BadEntry` with the name.
pub(crate) fn entry(alloc: Global, name: &str, written: &Value) -> Result<Routine, TableError>
    ensures { IsEntry name.now (entry_of name.now (view written.now)) result }
{
    let own_name = copied(alloc, name)?;
    match entry_keys(name, written) {
        None => Err(TableError::BadEntry(own_name)),
        Some(
            EntryKeys {
                role,
                moves,
                purges,
                fills,
                size,
            },
        ) => Ok(Routine {
            name: own_name,
            role,
            moves,
            purges,
            fills,
            size,
        }),
    }
}
