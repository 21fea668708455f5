//! Reads the named files, unit by unit.

ghost use Rattle.std.specs.Prelude.{◌≡◌, IfOk, map, List, ℕ};
ghost use Rattle.std.specs.String.{string_bytes};
ghost use Rattle.hs_base.specs.Files.{NeverFall};
ghost use Rattle.hs_base.specs.Reads.{Makes};
ghost use Rattle.hs_directives.specs.Preprocessing.{fresh, start, units_of, source_of};
ghost use Rattle.hs_directives.specs.Readings.{IsReading, units_by};
ghost use Rattle.hs_directives.specs.Reads.{ReadsInTurn, IsReadThrough};

use crate::error::ReadError;
use crate::files_read::FilesRead;
use crate::included::Included;
use crate::lists::{FileNumbers, Texts, UnitTokens};
use crate::macro_changes::UnitChanges;
use crate::source::Source;
use crate::state::{File, Progress, State};
use crate::unit::{TranslationUnit, fresh, unit_of};
use hs_base::Files;
use hs_macros::Budget;
use std::alloc::{AllocError, Global};

/// Nothing was read.
fn start(alloc: Global) -> Progress
    ensures { result ≡ start }
{
    Progress {
        files: FilesRead::new(alloc),
        room: 4_000_000,
        left: Budget {
            replacements: 1_000_000,
            tokens: 4_000_000,
        },
        included: Included::new(alloc),
    }
}

/// The units of root files, one after another.
fn units_of<F: Files>(
    alloc: Global,
    files: &mut F,
    roots: &[String],
    state: &mut State,
) -> Result<Vec<TranslationUnit>, ReadError>
    requires { state.old.unit ≡ fresh }
    ensures listing_stays { F.listing files.new ≡ F.listing files.old }
    ensures counts_stay_up { NeverFall (F.counts files.old) (F.counts files.new) }
    ensures means { IsReading state.old.progress.files state.new.progress.files
        (λ units. units_by state.new.progress units.items) (λ listing. units_of listing (map string_bytes roots.now) state.old.progress) result }
    ensures reads { ReadsInTurn (Makes F.leads_to F.listing F.counts) files.old files.new state.old.progress.files state.new.progress.files
        (λ listing. units_of listing (map string_bytes roots.now) state.old.progress) result }
{
    let mut units = Vec::new(alloc);
    let mut rest = roots;
    'roots: while let Some((root, behind)) = rest.split_first() {
        units.push(unit_of(alloc, files, root.as_str(), state)?)?;
        rest = behind;
    }
    Ok(units)
}

/// The names and the texts of the files.
fn texts_of(alloc: Global, files: FilesRead) -> Result<(Texts, Texts), AllocError>
    ensures { IfOk result (λ texts. (texts.0 ≡ map (λ file. file.name) files) × (texts.1 ≡ map (λ file. file.text) files)) }
{
    let mut names = Vec::new(alloc);
    let mut texts = Vec::new(alloc);
    'files: for file in files.into_vec() {
        let File {
            name,
            text,
            tokens: _,
        } = file;
        names.push(name)?;
        texts.push(text)?;
    }
    Ok((Texts::from_vec(names), Texts::from_vec(texts)))
}

/// What a reader of sources gives.
fn source_of(
    alloc: Global,
    units: Vec<TranslationUnit>,
    progress: Progress,
) -> Result<Source, AllocError>
    ensures { IfOk result (λ source. source ≡ source_of (units_by progress units.items)) }
{
    let mut roots = Vec::new(alloc);
    let mut tokens = Vec::new(alloc);
    let mut changes = Vec::new(alloc);
    'units: for unit in units {
        roots.push(unit.root)?;
        tokens.push(unit.tokens)?;
        changes.push(unit.changes)?;
    }
    let included = progress.included.to_vec(alloc)?;
    let (names, texts) = texts_of(alloc, progress.files)?;
    Ok(Source {
        names,
        texts,
        units: UnitTokens::from_vec(tokens),
        roots: FileNumbers::from_vec(roots),
        included: FileNumbers::from_vec(included),
        changes: UnitChanges::from_vec(changes),
    })
}

/// The sources of the named files, in their order, each read once (X3.159-1989 2.1.1.2 phase 4, and 3.8).
///
/// Example: of the name `a.c`, if `a.c` includes `a.h` and nothing else, it makes one unit of two files: `a.c` is number 0,
/// and `a.h` is number 1.
///
/// # Errors
///
/// The first refusal, as [`ReadError`] says: if it has a place, that is in the file of its number.
pub fn preprocess<F: Files>(
    alloc: Global,
    files: &mut F,
    roots: &[String],
) -> Result<Source, ReadError>
    ensures listing_stays { F.listing files.new ≡ F.listing files.old }
    ensures counts_stay_up { NeverFall (F.counts files.old) (F.counts files.new) }
    // Each file was read once, in the order of its number, and no other; and the answer is the definition's, of what the
    // reads gave.
    ensures reads { IsReadThrough (Makes F.leads_to F.listing F.counts) files.old files.new (map string_bytes roots.now) result }
{
    let mut state = State {
        progress: start(alloc),
        unit: fresh(alloc)?,
    };
    let units = units_of(alloc, files, roots, &mut state)?;
    Ok(source_of(alloc, units, state.progress)?)
}
