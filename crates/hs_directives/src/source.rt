//! What the named files and their headers were read as.

use crate::lists::{FileNumbers, Texts, UnitTokens};
use crate::macro_changes::UnitChanges;
use hs_base::{Bytes, Pos};

/// A `#define` or `#undef` that was reached.
#[derive(Drop)]
pub struct MacroChange {
    /// Its `#`, or that of the root file's outermost open `#include` if one is open.
    pub pos: Pos,
    /// The macro's name.
    pub name: Bytes,
    /// It is a `#define`.
    pub on: bool,
}

/// What named files and their headers were read as.
#[derive(Drop)]
pub struct Source {
    /// The names of the files, in the order of first reads. A file's number is its place here.
    pub names: Texts,
    /// Their bytes.
    pub texts: Texts,
    /// The tokens of each unit, in the order of the root names.
    pub units: UnitTokens,
    /// The number of each unit's root file.
    pub roots: FileNumbers,
    /// The numbers of the files that a reached `#include` names, ascending.
    pub included: FileNumbers,
    /// The changes of macros in each unit, in the order in which they are reached.
    pub changes: UnitChanges,
}
