//! From the words of a run to its report.

ghost use Rattle.std.specs.Prelude.{◌≡◌, map, IfSome, OnOk};
ghost use Rattle.std.specs.String.{string_bytes};
ghost use Rattle.hs_base.specs.Files.{NeverFall};
ghost use Rattle.hs_base.specs.Reads.{Makes, MadeReads};
ghost use Rattle.hs_code.specs.Codes.{view_program};
ghost use Rattle.hs_lowering.specs.Statements.{codes_of};
ghost use Rattle.hs_meaning.specs.Classes.{classes_of};
ghost use Rattle.hs_movers.specs.ScriptTexts.{IsPrintable};
ghost use Rattle.hs_runner.specs.Runs.{HasFewOps};
ghost use Rattle.hs_words.specs.Words.{asked_of};
ghost use Rattle.hs_command.specs.Movers.{told_with};
ghost use Rattle.hs_command.specs.Runs.{IsFileIn, IsReportOfRun, IsRunOfSources, IsShownAs, IsRunVerdict, report_of};

use crate::file_names::FileNames;
use crate::reading::{read_noting, refused};
use hs_base::{Bytes, Files, NoMemory};
use hs_code::Code;
use hs_lower::{LowerEnd, lower};
use hs_machine::{MachineEnd, Transcript};
use hs_meaning::{Input, Outcome};
use hs_movers::{Mover, Script};
use hs_report::{Ran, Report, RunReport};
use hs_run_text::print_run;
use hs_runner::run_code;
use hs_settings::{Settings, SettingsError, read_settings};
use hs_table::Table;
use hs_tree::Program;
use hs_words::RunWords;
use std::alloc::Global;

/// The name of the file in which a run was stopped. A run that was not stopped names none.
fn file_of<'a>(names: &'a FileNames, outcome: Outcome) -> Option<&'a [u8]>
    ensures { IfSome result (λ file. IsFileIn names.now outcome file.now) }
{
    match outcome {
        Outcome::Finished(_) => Some(b""),
        Outcome::Stopped(_, at) => match names.get(at.file) {
            Some(name) => Some(name.items()),
            None => None,
        },
        Outcome::TurnsSpent => Some(b""),
    }
}

/// A run as it is shown.
fn shown(alloc: Global, names: &FileNames, its: &Transcript) -> RunReport
    requires printable { IsPrintable its.now.script }
    ensures { IsShownAs names.now its.now result }
{
    let Some(file) = file_of(names, its.outcome) else {
        return RunReport::Plain(Report::NoMemory);
    };
    match print_run(alloc, its.output.items(), file, its.outcome, &its.script) {
        Ok(text) => RunReport::Shown(Ran {
            text: Bytes::from_vec(text),
            outcome: its.outcome,
        }),
        Err(NoMemory) => RunReport::Plain(Report::NoMemory),
    }
}

/// The report of the run of the code of a program.
fn run_of_code(
    alloc: Global,
    names: &FileNames,
    code: &Code,
    input: &Input,
    mover: &mut Box<dyn Mover>,
    turns: u64,
) -> RunReport
    requires classes { code.now.classes.items ≡ classes_of (view_program code.now.program.now) }
    requires code { code.now.functions.items ≡ codes_of (view_program code.now.program.now) }
    requires few { HasFewOps (view_program code.now.program.now) }
    ensures { IsReportOfRun (view_program code.now.program.now) input.now turns (told mover.old) names.now result }
{
    match run_code(alloc, code, input, mover, turns) {
        Ok(its) => shown(alloc, names, &its),
        Err(MachineEnd::Limit(limit)) => RunReport::Plain(Report::Limited(limit)),
        Err(MachineEnd::NoMemory) => RunReport::Plain(Report::NoMemory),
    }
}

/// The report of the run of a program.
fn run_of_program(
    alloc: Global,
    names: &FileNames,
    program: &Program,
    input: &Input,
    mover: &mut Box<dyn Mover>,
    turns: u64,
) -> RunReport
    ensures { IsReportOfRun (view_program program.now) input.now turns (told mover.old) names.now result }
{
    match lower(alloc, program) {
        Ok(code) => run_of_code(alloc, names, &code, input, mover, turns),
        Err(LowerEnd::Limit(limit)) => RunReport::Plain(Report::Limited(limit)),
        Err(LowerEnd::NoMemory) => RunReport::Plain(Report::NoMemory),
    }
}

/// Reads the sources and runs them, once the table and the input are there.
fn run_sources<F: Files>(
    alloc: Global,
    files: &mut F,
    roots: &[String],
    table: Table,
    input: &Input,
    mover: &mut Box<dyn Mover>,
    turns: u64,
) -> RunReport
    ensures listing_stays { F.listing files.new ≡ F.listing files.old }
    ensures counts_stay_up { NeverFall (F.counts files.old) (F.counts files.new) }
    ensures means { MadeReads (Makes F.leads_to F.listing F.counts) files.old files.new
        (λ reads. IsRunOfSources table input.now turns (told mover.old) (map string_bytes roots.now) reads result) }
{
    let mut names = FileNames::new(alloc);
    match read_noting(alloc, files, &mut names, roots, table) {
        Ok(read) => run_of_program(alloc, &names, &read.1, input, mover, turns),
        Err(error) => RunReport::Plain(refused(alloc, &names, error)),
    }
}

/// Loads the script into the mover, if there is one.
fn load(alloc: Global, mover: &mut Box<dyn Mover>, script: &Option<Script>) -> Result<(), NoMemory>
    ensures { OnOk result (told mover.new ≡ told_with script.now (record { number = number mover.old; told = told mover.old; after = after mover.old })) }
{
    match script {
        Some(script) => mover.load(alloc, script),
        None => Ok(()),
    }
}

/// Runs the sources with a table, a script and an input.
fn run_with<F: Files>(
    alloc: Global,
    files: &mut F,
    words: &RunWords,
    settings: Settings,
    mover: &mut Box<dyn Mover>,
) -> RunReport
    ensures listing_stays { F.listing files.new ≡ F.listing files.old }
    ensures counts_stay_up { NeverFall (F.counts files.old) (F.counts files.new) }
    ensures means { MadeReads (Makes F.leads_to F.listing F.counts) files.old files.new
        (λ reads. IsRunOfSources settings.table settings.input words.now.turns
        (told_with settings.script (record { number = number mover.old; told = told mover.old; after = after mover.old }))
        (map string_bytes words.now.names.items) reads result) }
{
    let Settings {
        table,
        script,
        input,
    } = settings;
    match load(alloc, mover, &script) {
        Ok(()) => {
            let roots = words.names.as_slice();
            run_sources(alloc, files, roots, table, &input, mover, words.turns)
        }
        Err(NoMemory) => RunReport::Plain(Report::NoMemory),
    }
}

/// The report of a table, a script or an input that is not there or is wrong.
fn unsettled(error: SettingsError) -> RunReport
    ensures { result ≡ report_of error }
{
    match error {
        SettingsError::Missing(name) => RunReport::Plain(Report::Missing(name)),
        SettingsError::Unread(name) => RunReport::Plain(Report::Unread(name)),
        SettingsError::Limit(limit) => RunReport::Plain(Report::Limited(limit)),
        SettingsError::NotToml => RunReport::NotToml,
        SettingsError::BadVersion => RunReport::BadVersion,
        SettingsError::BadEntry(name) => RunReport::BadEntry(name),
        SettingsError::BadScript(line) => RunReport::BadScript(line),
        SettingsError::BadInput(line) => RunReport::BadInput(line),
        SettingsError::NoMemory => RunReport::Plain(Report::NoMemory),
    }
}

/// Reads what the words of a run name, and runs it with that mover.
pub(crate) fn run_named<F: Files>(
    alloc: Global,
    files: &mut F,
    words: &RunWords,
    mover: &mut Box<dyn Mover>,
) -> RunReport
    ensures listing_stays { F.listing files.new ≡ F.listing files.old }
    ensures counts_stay_up { NeverFall (F.counts files.old) (F.counts files.new) }
    ensures means { MadeReads (Makes F.leads_to F.listing F.counts) files.old files.new
        (λ reads. IsRunVerdict (record { number = number mover.old; told = told mover.old; after = after mover.old }) (asked_of words.now) reads result) }
{
    match read_settings(alloc, files, words) {
        Ok(settings) => run_with(alloc, files, words, settings, mover),
        Err(error) => unsettled(error),
    }
}
