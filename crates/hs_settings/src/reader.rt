//! Reads the files that a run is given beside its sources.

ghost use Rattle.std.specs.Prelude.{◌≡◌, ◌≤◌, length, option_map, None, IfOk};
ghost use Rattle.std.specs.String.{string_bytes};
ghost use Rattle.hs_base.specs.Files.{NeverFall, Read};
ghost use Rattle.hs_base.specs.Reads.{Makes, MadeReads};
ghost use Rattle.hs_words.specs.Words.{asked_of};
ghost use Rattle.hs_settings.specs.Settings.{HasInput, HasScript, IsError, IsNamed, IsOf, IsPart, IsSettings, IsText, end_of, input_in, no_input, script_in, table_in};

use crate::{Settings, SettingsError, parts};
use hs_base::{Bytes, FileEnd, Files, LimitKind};
use hs_meaning::Input;
use hs_movers::Script;
use hs_table::Table;
use hs_words::RunWords;
use std::alloc::{AllocError, Global};

/// The name, as bytes.
fn name_of(alloc: Global, name: &str) -> Result<Bytes, AllocError>
    ensures { IfOk result (λ bytes. bytes ≡ name.now) }
{
    Ok(Bytes::from_vec(name.as_bytes().to_vec(alloc)?))
}

/// Why a read of a file of that name gave none.
fn ended(alloc: Global, name: &str, end: FileEnd) -> SettingsError
    ensures { IsError (end_of name.now end) result }
{
    match end {
        FileEnd::Missing => {
            name_of(alloc, name).map_or(SettingsError::NoMemory, SettingsError::Missing)
        }
        FileEnd::Failed => {
            name_of(alloc, name).map_or(SettingsError::NoMemory, SettingsError::Unread)
        }
        FileEnd::TooLong => SettingsError::Limit(LimitKind::FileBytes.passed()),
        FileEnd::NoMemory => SettingsError::NoMemory,
    }
}

/// The text of the file of that name.
fn text<F: Files>(alloc: Global, files: &mut F, name: &str) -> Result<Vec<u8>, SettingsError>
    ensures listing_stays { F.listing files.new ≡ F.listing files.old }
    ensures counts_stay_up { NeverFall (F.counts files.old) (F.counts files.new) }
    ensures few { IfOk result (λ text. length text.items ≤ 4194304) }
    ensures read { (read : Read) × Makes F.leads_to F.listing F.counts files.old read files.new × IsOf name.now read × IsText read result }
{
    let mut text = Vec::new(alloc);
    match files.read(name, 4_194_304, &mut text) {
        Ok(()) => Ok(text),
        Err(end) => Err(ended(alloc, name, end)),
    }
}

/// The table of the file of that name.
fn table<F: Files>(alloc: Global, files: &mut F, name: &str) -> Result<Table, SettingsError>
    ensures listing_stays { F.listing files.new ≡ F.listing files.old }
    ensures counts_stay_up { NeverFall (F.counts files.old) (F.counts files.new) }
    ensures means { MadeReads (Makes F.leads_to F.listing F.counts) files.old files.new (λ reads. IsPart name.now table_in reads result) }
{
    match text(alloc, files, name) {
        Ok(text) => parts::table_in(alloc, text.as_slice()),
        Err(error) => Err(error),
    }
}

/// The script of the file of that name.
fn script_named<F: Files>(
    alloc: Global,
    files: &mut F,
    name: &str,
) -> Result<Option<Script>, SettingsError>
    ensures listing_stays { F.listing files.new ≡ F.listing files.old }
    ensures counts_stay_up { NeverFall (F.counts files.old) (F.counts files.new) }
    ensures means { MadeReads (Makes F.leads_to F.listing F.counts) files.old files.new (λ reads. IsPart name.now script_in reads result) }
{
    match text(alloc, files, name) {
        Ok(text) => parts::script_in(alloc, text.as_slice()),
        Err(error) => Err(error),
    }
}

/// The script, if one is named.
fn script<F: Files>(
    alloc: Global,
    files: &mut F,
    name: &Option<String>,
) -> Result<Option<Script>, SettingsError>
    ensures listing_stays { F.listing files.new ≡ F.listing files.old }
    ensures counts_stay_up { NeverFall (F.counts files.old) (F.counts files.new) }
    ensures means { MadeReads (Makes F.leads_to F.listing F.counts) files.old files.new
        (λ reads. IsNamed None script_in (option_map string_bytes name.now) reads result) }
{
    match name {
        Some(name) => script_named(alloc, files, name.as_str()),
        None => Ok(None),
    }
}

/// The input of the file of that name.
fn input_named<F: Files>(alloc: Global, files: &mut F, name: &str) -> Result<Input, SettingsError>
    ensures listing_stays { F.listing files.new ≡ F.listing files.old }
    ensures counts_stay_up { NeverFall (F.counts files.old) (F.counts files.new) }
    ensures means { MadeReads (Makes F.leads_to F.listing F.counts) files.old files.new (λ reads. IsPart name.now input_in reads result) }
{
    match text(alloc, files, name) {
        Ok(text) => parts::input_in(alloc, text.as_slice()),
        Err(error) => Err(error),
    }
}

/// The input, or an empty one if none is named.
fn input<F: Files>(
    alloc: Global,
    files: &mut F,
    name: &Option<String>,
) -> Result<Input, SettingsError>
    ensures listing_stays { F.listing files.new ≡ F.listing files.old }
    ensures counts_stay_up { NeverFall (F.counts files.old) (F.counts files.new) }
    ensures means { MadeReads (Makes F.leads_to F.listing F.counts) files.old files.new
        (λ reads. IsNamed no_input input_in (option_map string_bytes name.now) reads result) }
{
    match name {
        Some(name) => input_named(alloc, files, name.as_str()),
        None => Ok(parts::no_input(alloc)),
    }
}

/// The input, with what was read before it.
fn with_input<F: Files>(
    alloc: Global,
    files: &mut F,
    words: &RunWords,
    table: Table,
    script: Option<Script>,
) -> Result<Settings, SettingsError>
    ensures listing_stays { F.listing files.new ≡ F.listing files.old }
    ensures counts_stay_up { NeverFall (F.counts files.old) (F.counts files.new) }
    ensures means { MadeReads (Makes F.leads_to F.listing F.counts) files.old files.new (λ reads. HasInput (asked_of words.now) table script reads result) }
{
    match input(alloc, files, &words.input) {
        Ok(input) => Ok(Settings {
            table,
            script,
            input,
        }),
        Err(error) => Err(error),
    }
}

/// The script and the input, with the table.
fn with_script<F: Files>(
    alloc: Global,
    files: &mut F,
    words: &RunWords,
    table: Table,
) -> Result<Settings, SettingsError>
    ensures listing_stays { F.listing files.new ≡ F.listing files.old }
    ensures counts_stay_up { NeverFall (F.counts files.old) (F.counts files.new) }
    ensures means { MadeReads (Makes F.leads_to F.listing F.counts) files.old files.new (λ reads. HasScript (asked_of words.now) table reads result) }
{
    match script(alloc, files, &words.script) {
        Ok(script) => with_input(alloc, files, words, table, script),
        Err(error) => Err(error),
    }
}

/// What the words of a run name beside its sources: the table, the script if one is named, and the input if one is named. They are read in this
/// order, each once, and the first that is wrong ends the reading.
///
/// # Errors
///
/// As [`SettingsError`] says.
pub fn read_settings<F: Files>(
    alloc: Global,
    files: &mut F,
    words: &RunWords,
) -> Result<Settings, SettingsError>
    ensures listing_stays { F.listing files.new ≡ F.listing files.old }
    ensures counts_stay_up { NeverFall (F.counts files.old) (F.counts files.new) }
    ensures means { MadeReads (Makes F.leads_to F.listing F.counts) files.old files.new (λ reads. IsSettings (asked_of words.now) reads result) }
{
    match table(alloc, files, words.table.as_str()) {
        Ok(table) => with_script(alloc, files, words, table),
        Err(error) => Err(error),
    }
}
