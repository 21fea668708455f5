//! Goes through the pieces of a file.

ghost use Rattle.hs_base.specs.Files.{NeverFall};
ghost use Rattle.hs_base.specs.Reads.{Makes};
ghost use Rattle.hs_directives.specs.Pieces.{pieces};
ghost use Rattle.hs_directives.specs.Preprocessing.{walked, entered};
ghost use Rattle.hs_directives.specs.Readings.{IsReading};
ghost use Rattle.hs_directives.specs.Reads.{ReadsInTurn};
ghost use Rattle.std.specs.Prelude.{◌≡◌, []};

use crate::define::place_of;
use crate::directive::{inclusion, piece_done};
use crate::entry::entry;
use crate::error::ReadError;
use crate::file_tokens::FileTokens;
use crate::open_sections::OpenSections;
use crate::pieces::first_piece;
use crate::state::State;
use hs_base::{Files, Pos};
use std::alloc::Global;

/// The pieces of a file, one after another, if so many levels may still be opened. A section that is still open at the end
/// is tried last.
pub(crate) fn walk<F: Files>(
    alloc: Global,
    files: &mut F,
    levels: usize,
    outer: Option<Pos>,
    file: &FileTokens,
    state: &mut State,
) -> Result<(), ReadError>
    ensures listing_stays { F.listing files.new ≡ F.listing files.old }
    ensures counts_stay_up { NeverFall (F.counts files.old) (F.counts files.new) }
    ensures means { IsReading state.old.progress.files state.new.progress.files
        (λ _. state.new) (λ listing. walked (entered levels listing) outer (pieces file.now) [] state.old) result }
    ensures reads { ReadsInTurn (Makes F.leads_to F.listing F.counts) files.old files.new state.old.progress.files state.new.progress.files
        (λ listing. walked (entered levels listing) outer (pieces file.now) [] state.old) result }
{
    let mut sections = OpenSections::new(alloc);
    let mut rest = file.items();
    'pieces: while let Some((part, behind)) = first_piece(rest) {
        if let Some((hash, line)) = inclusion(part, &sections) {
            let tokens = entry(alloc, files, levels, hash, line, state)?;
            let outer = Some(place_of(outer, hash.pos));
            walk(alloc, files, levels - 1, outer, &tokens, state)?;
        } else {
            piece_done(alloc, outer, part, &mut sections, state)?;
        }
        rest = behind;
    }
    match sections.open_at() {
        Some(pos) => Err(ReadError::OpenIf(pos)),
        None => Ok(()),
    }
}
