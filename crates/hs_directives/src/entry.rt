//! Finds the file that an `#include` names, if one more level may be opened (X3.159-1989 3.8.2).

ghost use Rattle.std.specs.Prelude.{◌≡◌, ◌<◌, IfOk};
ghost use Rattle.hs_base.specs.Files.{NeverFall};
ghost use Rattle.hs_base.specs.Reads.{Makes};
ghost use Rattle.hs_directives.specs.Readings.{IsReading, entered_by, entry};
ghost use Rattle.hs_directives.specs.Reads.{ReadsInTurn};

use crate::error::ReadError;
use crate::file_tokens::FileTokens;
use crate::found::found_file;
use crate::include::include_name;
use crate::state::State;
use hs_base::Files;
use hs_tokens::Token;
use std::alloc::Global;

/// The file that an `#include` names, if so many levels may still be opened (X3.159-1989 3.8.2).
pub(crate) fn entry<F: Files>(
    alloc: Global,
    files: &mut F,
    levels: usize,
    hash: &Token,
    line: &[Token],
    state: &mut State,
) -> Result<FileTokens, ReadError>
    ensures listing_stays { F.listing files.new ≡ F.listing files.old }
    ensures counts_stay_up { NeverFall (F.counts files.old) (F.counts files.new) }
    ensures means { IsReading state.old.progress.files state.new.progress.files
        (entered_by state.new) (λ listing. entry levels listing hash.now line.now state.old) result }
    ensures reads { ReadsInTurn (Makes F.leads_to F.listing F.counts) files.old files.new state.old.progress.files state.new.progress.files
        (λ listing. entry levels listing hash.now line.now state.old) result }
    ensures deep { IfOk result (λ _. 0 < levels) }
{
    let named = include_name(
        alloc,
        &state.unit.macros,
        state.progress.left,
        hash.pos,
        line,
    )?;
    if levels == 0 {
        return Err(ReadError::IncludeDepth(hash.pos));
    }
    state.progress.left = named.left;
    let known = found_file(alloc, files, named.name.as_str(), &mut state.progress)?;
    state.progress.included.insert(known.number)?;
    Ok(known.tokens)
}
