//! What a source is refused for, with the number and the word of each fault.

ghost use Rattle.std.specs.Prelude.{◌≡◌};
ghost use Rattle.hs_report.specs.Faults.{number_of, word_of, placed_by, typed_by};

use hs_base::{Bytes, Pos};
use hs_directives::{MacroKind, ReadError, ScanKind};
use hs_typer::TypeError;

/// What a source is refused for, at a place. `docs/READING.md`, `docs/SYNTAX.md` and `docs/TYPING.md` say when each comes, and where it
/// stands.
#[derive(Clone, Copy, Debug, PartialEq, Eq)]
pub enum Fault {
    /// A byte that begins no token, or a malformed escape (X3.159-1989 3.1, 3.1.3.4).
    BadByte,
    /// A comment that the file leaves open (3.1.9).
    OpenComment,
    /// A string or a character constant that its line leaves open, or an empty constant (3.1.3.4, 3.1.4).
    OpenString,
    /// A `#define` that is no definition, or differs from one that stands (3.8.3).
    BadMacro,
    /// An invocation of a macro with another number of arguments, or one that is left open (3.8.3).
    ArgCount,
    /// A directive of no form, or `#error` (3.8).
    BadDirective,
    /// A conditional section that the file leaves open (3.8.1).
    OpenIf,
    /// More levels of inclusion than 32 (3.8.2).
    IncludeDepth,
    /// A condition that is no constant expression, or divides by 0 (3.8.1).
    BadCondition,
    /// Tokens that are not a translation unit: at the first external declaration that is wrong (3.5 to 3.7).
    Syntax,
    /// A constraint of C is not met, or a form is left out (3.1 to 3.7).
    Untyped,
    /// A name that is not declared (3.3.1).
    Undeclared,
    /// A call of a function that is neither defined nor in the table.
    UnknownRoutine,
    /// Two declarations that are not compatible, two definitions, or a routine whose declaration does not fit its role (3.1.2.6, 3.7).
    Clash,
}

impl Fault {
    /// The number that a line names it by.
    pub fn number(self) -> u8
        ensures { result ≡ number_of self }
    {
        match self {
            Fault::BadByte => 1,
            Fault::OpenComment => 2,
            Fault::OpenString => 3,
            Fault::BadMacro => 4,
            Fault::ArgCount => 5,
            Fault::BadDirective => 6,
            Fault::OpenIf => 7,
            Fault::IncludeDepth => 8,
            Fault::BadCondition => 9,
            Fault::Syntax => 10,
            Fault::Untyped => 11,
            Fault::Undeclared => 12,
            Fault::UnknownRoutine => 13,
            Fault::Clash => 15,
        }
    }

    /// The word that a line names it by.
    ///
    /// Example: `Syntax`, whose number is 10.
    pub fn word(self) -> &'static str
        ensures { result.now ≡ word_of self }
    {
        match self {
            Fault::BadByte => "BadByte",
            Fault::OpenComment => "OpenComment",
            Fault::OpenString => "OpenString",
            Fault::BadMacro => "BadMacro",
            Fault::ArgCount => "ArgCount",
            Fault::BadDirective => "BadDirective",
            Fault::OpenIf => "OpenIf",
            Fault::IncludeDepth => "IncludeDepth",
            Fault::BadCondition => "BadCondition",
            Fault::Syntax => "Syntax",
            Fault::Untyped => "Untyped",
            Fault::Undeclared => "Undeclared",
            Fault::UnknownRoutine => "UnknownRoutine",
            Fault::Clash => "Clash",
        }
    }
}

/// The fault that a refusal of reading is, and its place, if it has one. A missing file, a limit and a lack of memory have none.
///
/// Example: `IncludeDepth`, at the `#include` that is one level too deep.
pub fn placed_by(error: &ReadError) -> Option<(Fault, Pos)>
    ensures { result ≡ placed_by error.now }
{
    match error {
        ReadError::Scan(ScanKind::BadByte, pos) => Some((Fault::BadByte, *pos)),
        ReadError::Scan(ScanKind::OpenComment, pos) => Some((Fault::OpenComment, *pos)),
        ReadError::Scan(ScanKind::OpenString, pos) => Some((Fault::OpenString, *pos)),
        ReadError::Macro(MacroKind::BadMacro, pos) => Some((Fault::BadMacro, *pos)),
        ReadError::Macro(MacroKind::ArgCount, pos) => Some((Fault::ArgCount, *pos)),
        ReadError::BadDirective(pos) => Some((Fault::BadDirective, *pos)),
        ReadError::OpenIf(pos) => Some((Fault::OpenIf, *pos)),
        ReadError::IncludeDepth(pos) => Some((Fault::IncludeDepth, *pos)),
        ReadError::BadCondition(pos) => Some((Fault::BadCondition, *pos)),
        ReadError::Missing(_)
        | ReadError::ReadFault(_)
        | ReadError::Limit(_)
        | ReadError::NoMemory => None,
    }
}

/// The fault that a refusal of typing is, its place, and the name that its line tells, if it tells one. A lack of memory is no fault.
///
/// Example: `Undeclared`, the place of the name, and the name.
pub fn typed_by(error: TypeError) -> Option<(Fault, Pos, Option<Bytes>)>
    ensures { result ≡ typed_by error }
{
    match error {
        TypeError::Untyped(at) => Some((Fault::Untyped, at.pos, None)),
        TypeError::Undeclared(at, name) => Some((Fault::Undeclared, at.pos, Some(name))),
        TypeError::UnknownRoutine(at, name) => Some((Fault::UnknownRoutine, at.pos, Some(name))),
        TypeError::Clash(at, name) => Some((Fault::Clash, at.pos, Some(name))),
        TypeError::NoMemory => None,
    }
}
