//! From the named files to their program, or to the report that they are not a program.

ghost use Rattle.std.specs.Prelude.{◌≡◌, [], map, Some};
ghost use Rattle.std.specs.String.{string_bytes};
ghost use Rattle.hs_base.specs.Files.{NeverFall};
ghost use Rattle.hs_base.specs.Reads.{Makes, MadeReads};
ghost use Rattle.hs_directives.specs.Reads.{AreFirstReads};
ghost use Rattle.hs_source.specs.Source.{IsSource};
ghost use Rattle.hs_source.specs.declared.source.SourceError.TheVariants as ends;
ghost use Rattle.hs_command.specs.Report.{AreNoted, IsFaultAt, IsRefusedReport, unplaced};

use crate::file_names::FileNames;
use crate::named_files::NamedFiles;
use hs_base::{Bytes, Files, Pos};
use hs_decl_parser::ParseError;
use hs_directives::{ReadError, Source};
use hs_report::{Fault, Refusal, Report, placed_by, typed_by};
use hs_source::{SourceError, read_program};
use hs_table::Table;
use hs_tree::Program;
use hs_typer::TypeError;
use std::alloc::Global;

/// Reads the program of the named files, and notes the names of the files that are read.
fn read_named<F: Files>(
    alloc: Global,
    named: &mut NamedFiles<'_, F>,
    roots: &[String],
    table: Table,
) -> Result<(Source, Box<Program>), SourceError>
    requires { named.old.names.now ≡ Some [] }
    ensures same_files { named.new.files.ghost_name ≡ named.old.files.ghost_name }
    ensures same_names { named.new.names.ghost_name ≡ named.old.names.ghost_name }
    ensures listing_stays { F.listing named.new.files.now ≡ F.listing named.old.files.now }
    ensures counts_stay_up { NeverFall (F.counts named.old.files.now) (F.counts named.new.files.now) }
    ensures means { MadeReads (Makes F.leads_to F.listing F.counts) named.old.files.now named.new.files.now
        (λ reads. AreFirstReads (map string_bytes roots.now) reads × AreNoted named.new.names.now reads
        × IsSource table reads (map string_bytes roots.now) result) }
{
    read_program(alloc, named, roots, table)
}

/// The same, of files and of names.
pub(crate) fn read_noting<F: Files>(
    alloc: Global,
    files: &mut F,
    names: &mut FileNames,
    roots: &[String],
    table: Table,
) -> Result<(Source, Box<Program>), SourceError>
    requires { names.old ≡ Some [] }
    ensures listing_stays { F.listing files.new ≡ F.listing files.old }
    ensures counts_stay_up { NeverFall (F.counts files.old) (F.counts files.new) }
    ensures means { MadeReads (Makes F.leads_to F.listing F.counts) files.old files.new
        (λ reads. AreFirstReads (map string_bytes roots.now) reads × AreNoted names.new reads
        × IsSource table reads (map string_bytes roots.now) result) }
{
    let mut named = NamedFiles { files, names };
    read_named(alloc, &mut named, roots, table)
}

/// The report of a fault at a place, with the name of the place's file, and the name that it tells.
fn fault_at(alloc: Global, names: &FileNames, fault: Fault, pos: Pos, name: Option<Bytes>) -> Report
    ensures { IsFaultAt names.now fault pos name result }
{
    let Some(file) = names.get(pos.file) else {
        return Report::NoMemory;
    };
    match file.items().to_vec(alloc) {
        Ok(bytes) => Report::Refused(Refusal {
            fault,
            file: Bytes::from_vec(bytes),
            pos,
            name,
        }),
        Err(_) => Report::NoMemory,
    }
}

/// The report of a refusal of reading that has no place.
fn unplaced(error: ReadError) -> Report
    ensures { result ≡ unplaced error }
{
    match error {
        ReadError::Missing(name) => Report::Missing(name),
        ReadError::ReadFault(name) => Report::Unread(name),
        ReadError::Limit(limit) => Report::Limited(limit),
        _ => Report::NoMemory,
    }
}

/// The report of a unit that is not in the grammar.
fn unparsed(alloc: Global, names: &FileNames, error: ParseError) -> Report
    ensures { IsRefusedReport names.now (ends.Parse error) result }
{
    match error {
        ParseError::Syntax(pos) => fault_at(alloc, names, Fault::Syntax, pos, None),
        ParseError::Limit(_) | ParseError::NoMemory => Report::NoMemory,
    }
}

/// The report of units that typing refuses.
fn untyped(alloc: Global, names: &FileNames, why: TypeError) -> Report
    ensures { IsRefusedReport names.now (ends.Typing why) result }
{
    match typed_by(why) {
        Some((fault, pos, name)) => fault_at(alloc, names, fault, pos, name),
        None => Report::NoMemory,
    }
}

/// The report of files that give no program.
pub(crate) fn refused(alloc: Global, names: &FileNames, error: SourceError) -> Report
    ensures { IsRefusedReport names.now error result }
{
    match error {
        SourceError::Read(error) => match placed_by(&error) {
            Some((fault, pos)) => fault_at(alloc, names, fault, pos, None),
            None => unplaced(error),
        },
        SourceError::Parse(error) => unparsed(alloc, names, error),
        SourceError::Typing(why) => untyped(alloc, names, why),
        SourceError::NoMain => Report::NoMain,
        SourceError::Limit(limit) => Report::Limited(limit),
        SourceError::NoMemory => Report::NoMemory,
    }
}
