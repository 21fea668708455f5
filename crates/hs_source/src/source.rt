//! From the named files to their typed program, or to the first error.

ghost use Rattle.std.specs.Prelude.{◌≡◌, map};
ghost use Rattle.std.specs.String.{string_bytes};
ghost use Rattle.hs_base.specs.Files.{NeverFall};
ghost use Rattle.hs_base.specs.Reads.{Makes, MadeReads};
ghost use Rattle.hs_directives.specs.Reads.{AreFirstReads};
ghost use Rattle.hs_syntax.specs.Views.{view_unit};
ghost use Rattle.hs_source.specs.Source.{IsBoxed, IsParsedAs, IsProgramOf, IsSource, IsTypedAs, RefusesAs, no_memory, source_error};

use hs_base::Files;
use hs_decl_parser::{ParseError, unit};
use hs_directives::{ReadError, Source, SourceTokens, preprocess};
use hs_syntax::{Unit, with};
use hs_table::Table;
use hs_tree::Program;
use hs_typer::TypeError;
use hs_typing::{ProgramError, program_of as typed_program};
use std::alloc::{AllocFailed, Global};

/// Why the named files give no program.
#[derive(Drop)]
pub enum SourceError {
    /// Reading refuses them: the first refusal. It is not a limit, and not that memory ran out.
    Read(ReadError),
    /// A unit is not in the grammar: the first such unit. It is not a limit, and not that memory ran out.
    Parse(ParseError),
    /// A constraint of C is not met, a name is not known, or declarations do not fit: the first refusal of typing.
    Typing(TypeError),
    /// No unit defines a usable function `main`.
    NoMain,
    /// A quantity passed its limit.
    Limit(hs_base::Limit),
    /// Memory was refused.
    NoMemory,
}

impl<T: Drop> From<AllocFailed<T>> for SourceError {
    ghost from_gives = { λ _ e. e ≡ no_memory };

    fn from(_refused: AllocFailed<T>) -> SourceError {
        SourceError::NoMemory
    }
}

/// A refusal of reading, as the error of a source.
fn refused(error: ReadError) -> SourceError
    ensures { RefusesAs error result }
{
    match error {
        ReadError::Limit(limit) => SourceError::Limit(limit),
        ReadError::NoMemory => SourceError::NoMemory,
        other => SourceError::Read(other),
    }
}

/// Parses each unit in turn, up to the first that is not in the grammar.
fn parsed(alloc: Global, units: &[SourceTokens]) -> Result<Vec<Unit>, SourceError>
    ensures { IsParsedAs units.now result }
{
    let mut trees = Vec::new(alloc);
    'units: for tokens in units {
        match unit(alloc, tokens.items()) {
            Ok(tree) => trees.push(tree)?,
            Err(ParseError::Limit(limit)) => return Err(SourceError::Limit(limit)),
            Err(ParseError::Syntax(pos)) => return Err(SourceError::Parse(ParseError::Syntax(pos))),
            Err(ParseError::NoMemory) => return Err(SourceError::NoMemory),
        }
    }
    Ok(trees)
}

/// A refusal of typing, as the error of a source.
fn untyped(why: ProgramError) -> SourceError
    ensures { result ≡ source_error why }
{
    match why {
        ProgramError::Refused(why) => SourceError::Typing(why),
        ProgramError::NoMain => SourceError::NoMain,
        ProgramError::Limit(limit) => SourceError::Limit(limit),
        ProgramError::NoMemory => SourceError::NoMemory,
    }
}

/// What was made, in a box. What is held is of a type that this function does not know, so its proof is short.
fn boxed<T: Drop>(alloc: Global, made: Result<T, ProgramError>) -> Result<Box<T>, SourceError>
    ensures { IsBoxed made result }
{
    match made {
        Ok(it) => Ok(Box::new(alloc, it)?),
        Err(why) => Err(untyped(why)),
    }
}

/// Types the units with a table, up to the first refusal.
fn typed(alloc: Global, table: Table, trees: &[Unit]) -> Result<Box<Program>, SourceError>
    ensures { IsTypedAs table (map view_unit trees.now) result }
{
    boxed(alloc, typed_program(alloc, table, trees))
}

/// The program of units: each is one of the grammar, and they are typed.
fn program_of(
    alloc: Global,
    table: Table,
    units: &[SourceTokens],
) -> Result<Box<Program>, SourceError>
    ensures { IsProgramOf table units.now result }
{
    match parsed(alloc, units) {
        Ok(trees) => typed(alloc, table, &trees),
        Err(error) => Err(error),
    }
}

/// The typed program of the named files and their headers with a table of routines, and what the files were read as.
///
/// # Errors
///
/// The first refusal of reading; then, of the first unit that is not in the grammar, the limit of nesting or
/// [`SourceError::Parse`]; then [`SourceError::Typing`] with the first refusal of typing, [`SourceError::NoMain`], or the limit of
/// Objects.
pub fn read_program<F: Files>(
    alloc: Global,
    files: &mut F,
    roots: &[String],
    table: Table,
) -> Result<(Source, Box<Program>), SourceError>
    ensures listing_stays { F.listing files.new ≡ F.listing files.old }
    ensures counts_stay_up { NeverFall (F.counts files.old) (F.counts files.new) }
    // The files were read, each once, in the order of its number, and no other; and the answer is right of what the reads gave.
    ensures means { MadeReads (Makes F.leads_to F.listing F.counts) files.old files.new
        (λ reads. AreFirstReads (map string_bytes roots.now) reads × IsSource table reads (map string_bytes roots.now) result) }
{
    match preprocess(alloc, files, roots) {
        Ok(source) => {
            let program = program_of(alloc, table, source.units.items());
            with(source, program)
        }
        Err(error) => Err(refused(error)),
    }
}
