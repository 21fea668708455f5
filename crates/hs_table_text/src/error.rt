//! Why a text is not read as a table.

ghost use Rattle.std.specs.Prelude.{◌≡◌};
ghost use Rattle.hs_table_text.specs.declared.error.TableError.TheVariants.{NoMemory as no_memory};

use hs_base::{Bytes, NoMemory};
use std::alloc::{AllocError, AllocFailed};

/// Why a text is not read as a table. If there are several causes, only the first is reported, in the order of these
/// variants.
#[derive(Debug, Drop)]
pub enum TableError {
    /// The bytes are not UTF-8, or they are no TOML document.
    NotToml,
    /// The key `version` is absent, or its value is not the integer 1.
    BadVersion,
    /// A routine that is written wrong: the name of the first one, in the order of the bytes of their names. If `routine` is
    /// there and is no table, this is the name. If all routines are right, the first key of the document, in the order of
    /// bytes, that is neither `version` nor `routine`.
    BadEntry(Bytes),
    /// Memory ran out.
    NoMemory,
}

impl From<NoMemory> for TableError {
    ghost from_gives = { λ _ e. e ≡ no_memory };

    fn from(_refused: NoMemory) -> TableError {
        TableError::NoMemory
    }
}

impl From<AllocError> for TableError {
    ghost from_gives = { λ _ e. e ≡ no_memory };

    fn from(_refused: AllocError) -> TableError {
        TableError::NoMemory
    }
}

impl<T: Drop> From<AllocFailed<T>> for TableError {
    ghost from_gives = { λ _ e. e ≡ no_memory };

    fn from(_refused: AllocFailed<T>) -> TableError {
        TableError::NoMemory
    }
}
