//! Errors without data: no memory, a failed write, a read that returned no bytes.

ghost use Rattle.std.specs.Prelude.{◌≡◌};
ghost use Rattle.hs_base.specs.declared.errors.FileEnd.TheVariants.{NoMemory as no_memory_end};

use std::alloc::{AllocError, AllocFailed};
use thiserror::Error;

/// Memory was refused.
#[derive(Clone, Copy, Debug, PartialEq, Eq, Error)]
#[error("no memory")]
pub struct NoMemory;

impl From<AllocError> for NoMemory {
    fn from(_refused: AllocError) -> NoMemory {
        NoMemory
    }
}

impl<T: Drop> From<AllocFailed<T>> for NoMemory {
    fn from(_refused: AllocFailed<T>) -> NoMemory {
        NoMemory
    }
}

/// A put failed. It comes only if the sink's count of faults rose.
#[derive(Clone, Copy, Debug, Error)]
#[error("a write failed")]
pub struct Failed;

/// Why a read gave no bytes. `specs/Files.antt` says when each comes.
#[derive(Clone, Copy, Debug, PartialEq, Eq, Error)]
pub enum FileEnd {
    /// There is no file of that name. The count of misses rose.
    #[error("no such file")]
    Missing,
    /// The outside failed. The count of faults rose.
    #[error("the read failed")]
    Failed,
    /// The file has more bytes than were asked for.
    #[error("the file is too long")]
    TooLong,
    /// Memory was refused.
    #[error("no memory")]
    NoMemory,
}

impl From<AllocError> for FileEnd {
    ghost from_gives = { λ _ e. e ≡ no_memory_end };

    fn from(_refused: AllocError) -> FileEnd {
        FileEnd::NoMemory
    }
}
