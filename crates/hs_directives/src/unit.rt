//! Reads one unit: a named file with its headers.

ghost use Rattle.std.specs.Prelude.{◌≡◌, IfOk, IfErr, OnOk};
ghost use Rattle.hs_base.specs.Files.{NeverFall};
ghost use Rattle.hs_base.specs.Reads.{Makes};
ghost use Rattle.hs_directives.specs.Preprocessing.{fresh, unit_of};
ghost use Rattle.hs_directives.specs.Readings.{IsReading, unit_by};
ghost use Rattle.hs_directives.specs.Reads.{ReadsInTurn};

use crate::error::ReadError;
use crate::found::found_file;
use crate::lists::SourceTokens;
use crate::macro_changes::MacroChanges;
use crate::state::{State, UnitSoFar};
use crate::walk::walk;
use hs_base::{Files, NoMemory};
use hs_macros::Macros;
use std::alloc::Global;
use std::mem::replace;

/// A unit (X3.159-1989 2.1.1.1).
#[derive(Drop)]
pub(crate) struct TranslationUnit {
    /// The number of its root file.
    pub(crate) root: u16,
    pub(crate) tokens: SourceTokens,
    pub(crate) changes: MacroChanges,
}

/// No macros, no tokens.
pub(crate) fn fresh(alloc: Global) -> Result<UnitSoFar, ReadError>
    ensures fresh { IfOk result (λ unit. unit ≡ fresh) }
    ensures reads_none { IfErr result (λ error. error ≡ ReadError.NoMemory) }
{
    match Macros::new(alloc) {
        Ok(macros) => Ok(UnitSoFar {
            macros,
            tokens: SourceTokens::from_vec(Vec::new(alloc)),
            changes: MacroChanges::from_vec(Vec::new(alloc)),
        }),
        Err(NoMemory) => Err(ReadError::NoMemory),
    }
}

/// The unit of a root file, if the state's unit is a fresh one, and is again a fresh one after it.
pub(crate) fn unit_of<F: Files>(
    alloc: Global,
    files: &mut F,
    name: &str,
    state: &mut State,
) -> Result<TranslationUnit, ReadError>
    requires { state.old.unit ≡ fresh }
    ensures listing_stays { F.listing files.new ≡ F.listing files.old }
    ensures counts_stay_up { NeverFall (F.counts files.old) (F.counts files.new) }
    ensures means { IsReading state.old.progress.files state.new.progress.files
        (unit_by state.new.progress) (λ listing. unit_of listing name.now state.old.progress) result }
    ensures reads { ReadsInTurn (Makes F.leads_to F.listing F.counts) files.old files.new state.old.progress.files state.new.progress.files
        (λ listing. unit_of listing name.now state.old.progress) result }
    ensures again { OnOk result (state.new.unit ≡ fresh) }
{
    let known = found_file(alloc, files, name, &mut state.progress)?;
    walk(alloc, files, 32, None, &known.tokens, state)?;
    let unit = replace(&mut state.unit, fresh(alloc)?);
    Ok(TranslationUnit {
        root: known.number,
        tokens: unit.tokens,
        changes: unit.changes,
    })
}
