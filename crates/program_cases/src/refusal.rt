//! Why a text is refused.

use hs_base::NoMemory;
use hs_expr_parser::ParseEnd;
use hs_lower::LowerEnd;
use hs_must::MustEnd;
use hs_table_text::TableError;
use hs_taint::TaintEnd;
use hs_tokens::Place;
use hs_typer::TypeError;
use hs_typing::ProgramError;
use std::alloc::{AllocError, AllocFailed};
use std::fmt;

/// The cause of a refusal.
#[derive(Clone, Copy, Debug)]
pub(crate) enum Why {
    Untyped,
    Undeclared,
    Unknown,
    Clash,
    /// A unit of a program is refused.
    Refused,
    NoMain,
    Limit,
    /// The text is not what the kind of its case asks for.
    Unread,
    NoMemory,
}

/// A cause, and the column, or 0 if the refusal has no place.
#[derive(Clone, Copy)]
pub(crate) struct Refusal {
    why: Why,
    column: u32,
}

impl fmt::Display for Refusal {
    fn fmt<W: fmt::Write>(&self, f: &mut fmt::Formatter<W>) -> fmt::Result {
        let why = self.why;
        match self.column {
            0 => write!(f, "{why:?}"),
            column => write!(f, "{why:?} {column}"),
        }
    }
}

impl From<Why> for Refusal {
    fn from(why: Why) -> Refusal {
        Refusal { why, column: 0 }
    }
}

/// A refusal at that place.
fn refused_at(why: Why, at: Place) -> Refusal {
    Refusal {
        why,
        column: at.pos.col,
    }
}

impl From<TypeError> for Refusal {
    fn from(why: TypeError) -> Refusal {
        match why {
            TypeError::Untyped(at) => refused_at(Why::Untyped, at),
            TypeError::Undeclared(at, _) => refused_at(Why::Undeclared, at),
            TypeError::UnknownRoutine(at, _) => refused_at(Why::Unknown, at),
            TypeError::Clash(at, _) => refused_at(Why::Clash, at),
            TypeError::NoMemory => Why::NoMemory.into(),
        }
    }
}

impl From<ProgramError> for Refusal {
    fn from(why: ProgramError) -> Refusal {
        match why {
            ProgramError::Refused(_) => Why::Refused.into(),
            ProgramError::NoMain => Why::NoMain.into(),
            ProgramError::Limit(_) => Why::Limit.into(),
            ProgramError::NoMemory => Why::NoMemory.into(),
        }
    }
}

impl From<LowerEnd> for Refusal {
    fn from(why: LowerEnd) -> Refusal {
        match why {
            LowerEnd::Limit(_) => Why::Limit.into(),
            LowerEnd::NoMemory => Why::NoMemory.into(),
        }
    }
}

impl From<MustEnd> for Refusal {
    fn from(why: MustEnd) -> Refusal {
        match why {
            MustEnd::Limit(_) => Why::Limit.into(),
            MustEnd::NoMemory => Why::NoMemory.into(),
        }
    }
}

impl From<TaintEnd> for Refusal {
    fn from(why: TaintEnd) -> Refusal {
        match why {
            TaintEnd::Limit(_) => Why::Limit.into(),
            TaintEnd::NoMemory => Why::NoMemory.into(),
        }
    }
}

impl From<TableError> for Refusal {
    fn from(why: TableError) -> Refusal {
        match why {
            TableError::NotToml | TableError::BadVersion | TableError::BadEntry(_) => {
                Why::Unread.into()
            }
            TableError::NoMemory => Why::NoMemory.into(),
        }
    }
}

impl From<ParseEnd> for Refusal {
    fn from(why: ParseEnd) -> Refusal {
        match why {
            ParseEnd::NotExpr => Why::Unread.into(),
            ParseEnd::NoMemory => Why::NoMemory.into(),
        }
    }
}

impl From<NoMemory> for Refusal {
    fn from(_refused: NoMemory) -> Refusal {
        Why::NoMemory.into()
    }
}

impl From<AllocError> for Refusal {
    fn from(_refused: AllocError) -> Refusal {
        Why::NoMemory.into()
    }
}

impl<T: Drop> From<AllocFailed<T>> for Refusal {
    fn from(_refused: AllocFailed<T>) -> Refusal {
        Why::NoMemory.into()
    }
}
