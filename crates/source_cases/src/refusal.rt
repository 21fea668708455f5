//! Refusals in words.

use hs_base::{Limit, NoMemory, Pos};
use hs_macros::MacroError;
use hs_tokens::ScanError;
use std::alloc::{AllocError, Global};

/// Why a text has no other answer.
#[derive(Clone, Copy)]
pub enum Refusal {
    /// It has no tokens.
    Scan(ScanError),
    /// Its definitions or invocations are refused.
    Macros(MacroError),
    /// The kind of its case is not one of those in `README.md`.
    Kind,
    /// Memory was refused.
    NoMemory,
}

impl From<ScanError> for Refusal {
    fn from(error: ScanError) -> Refusal {
        Refusal::Scan(error)
    }
}

impl From<MacroError> for Refusal {
    fn from(error: MacroError) -> Refusal {
        Refusal::Macros(error)
    }
}

impl From<AllocError> for Refusal {
    fn from(_refused: AllocError) -> Refusal {
        Refusal::NoMemory
    }
}

impl From<NoMemory> for Refusal {
    fn from(_refused: NoMemory) -> Refusal {
        Refusal::NoMemory
    }
}

/// A refusal at a place: its kind after a mark, and the file, the line and the column.
pub fn at(alloc: Global, kind: &str, Pos { file, line, col }: Pos) -> Result<String, AllocError> {
    format!(in alloc; "!{kind} {file}:{line}:{col}")
}

/// A limit that was passed.
pub fn limited(alloc: Global, limit: Limit) -> Result<String, AllocError> {
    let word = limit.kind.word();
    format!(in alloc; "!Limit {word} {}", limit.reached)
}

impl Refusal {
    /// The refusal in words, after a mark: its kind, and the place or the limit.
    pub fn words(self, alloc: Global) -> Result<String, AllocError> {
        match self {
            Refusal::Scan(ScanError::BadByte(pos)) => at(alloc, "BadByte", pos),
            Refusal::Scan(ScanError::OpenComment(pos)) => at(alloc, "OpenComment", pos),
            Refusal::Scan(ScanError::OpenString(pos)) => at(alloc, "OpenString", pos),
            Refusal::Macros(MacroError::ArgCount(pos)) => at(alloc, "ArgCount", pos),
            Refusal::Macros(MacroError::BadMacro) => "!BadMacro".to_string(alloc),
            Refusal::Scan(ScanError::Limit(limit)) | Refusal::Macros(MacroError::Limit(limit)) => {
                limited(alloc, limit)
            }
            Refusal::Kind => "!no such kind".to_string(alloc),
            Refusal::Scan(ScanError::NoMemory)
            | Refusal::Macros(MacroError::NoMemory)
            | Refusal::NoMemory => "!NoMemory".to_string(alloc),
        }
    }
}
