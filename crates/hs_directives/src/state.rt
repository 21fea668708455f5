//! What reading has come to.

use crate::file_tokens::FileTokens;
use crate::files_read::FilesRead;
use crate::included::Included;
use crate::lists::SourceTokens;
use crate::macro_changes::MacroChanges;
use hs_base::Bytes;
use hs_macros::{Budget, Macros};

/// A file that was read and scanned.
#[derive(Drop)]
pub(crate) struct File {
    pub(crate) name: Bytes,
    pub(crate) text: Bytes,
    pub(crate) tokens: FileTokens,
}

/// A file that was read before: its number and its tokens.
#[derive(Drop)]
pub(crate) struct KnownFile {
    pub(crate) number: u16,
    pub(crate) tokens: FileTokens,
}

/// What reading has come to.
#[derive(Drop)]
pub(crate) struct Progress {
    pub(crate) files: FilesRead,
    /// The tokens that may still be scanned.
    pub(crate) room: usize,
    /// What is left for replacements and for tokens.
    pub(crate) left: Budget,
    pub(crate) included: Included,
}

/// The unit so far.
#[derive(Drop)]
pub(crate) struct UnitSoFar {
    pub(crate) macros: Macros,
    pub(crate) tokens: SourceTokens,
    pub(crate) changes: MacroChanges,
}

/// What reading has come to, with the unit so far.
#[derive(Drop)]
pub(crate) struct State {
    pub(crate) progress: Progress,
    pub(crate) unit: UnitSoFar,
}
