//! The reports, and the line of each.

ghost use Rattle.std.specs.Prelude.{◌≡◌, ◌∷◌, ◌++◌, IfOk};
ghost use Rattle.hs_report.specs.Texts.{fault_of, line, name_told, status_of, text_of};

use crate::{Fault, Status};
use hs_base::{Bytes, Limit, Pos};
use std::alloc::{AllocError, Global};

/// A fault of a source, and where it stands.
#[derive(Debug, Drop)]
pub struct Refusal {
    pub fault: Fault,
    /// The name of the file of the place.
    pub file: Bytes,
    pub pos: Pos,
    /// The name that is reported with the fault, if the fault has one.
    pub name: Option<Bytes>,
}

/// What a call of the program answers. `specs/Texts.antt` says what its line is; what each one means is said where it is made, in `hs_command`.
#[derive(Debug, Drop)]
pub enum Report {
    /// The files are one straight program, which has no stale use.
    Accepted,
    /// They are one, which has so many stale uses.
    Hazards(u64),
    /// Reading refuses the files, at a place, or a unit is not in the grammar, or typing refuses the units.
    Refused(Refusal),
    /// The units are typed, and none defines a usable function `main`.
    NoMain,
    /// The files are a typed program, and no straight one.
    Unbuilt,
    /// The first word is no command, or the command refuses the words.
    Usage,
    /// There is no file of that name.
    Missing(Bytes),
    /// The file of that name could not be read.
    Unread(Bytes),
    /// A quantity passed its limit.
    Limited(Limit),
    /// Memory was refused.
    NoMemory,
}

/// The line of `Report::NoMemory`, which takes no memory.
///
/// Example: `no memory` and a line feed.
pub fn no_memory_line() -> &'static str
    ensures { result.now ≡ text_of Report.NoMemory }
{
    "no memory\n"
}

/// The line of `Report::Usage`, which takes no memory.
///
/// Example: it begins with `usage: handlecheck`.
pub fn usage_line() -> &'static str
    ensures { result.now ≡ text_of Report.Usage }
{
    "usage: handlecheck check|repair|run|gen [options] FILE...\n"
}

/// A word, a space and a name, as a line.
fn named(alloc: Global, word: &str, name: &[u8]) -> Result<Vec<u8>, AllocError>
    ensures { IfOk result (λ text. text.items ≡ line (word.now ++ 32 ∷ name.now)) }
{
    let mut text = word.as_bytes().to_vec(alloc)?;
    text.push(b' ')?;
    text.extend_from_slice(name)?;
    text.push(b'\n')?;
    Ok(text)
}

impl Refusal {
    /// The fault and its place.
    fn placed(&self, alloc: Global) -> Result<Vec<u8>, AllocError>
        ensures { IfOk result (λ text. text.items ≡ fault_of self.now) }
    {
        let number = self.fault.number();
        let word = self.fault.word();
        let line = self.pos.line;
        let col = self.pos.col;
        let front = format!(in alloc; "error {number} {word} at ")?;
        let back = format!(in alloc; ":{line}:{col}")?;
        let mut text = front.as_bytes().to_vec(alloc)?;
        text.extend_from_slice(self.file.items())?;
        text.extend_from_slice(back.as_bytes())?;
        Ok(text)
    }

    /// The line of the refusal.
    fn text(&self, alloc: Global) -> Result<Vec<u8>, AllocError>
        ensures { IfOk result (λ text. text.items ≡ line (fault_of self.now ++ name_told self.now.name)) }
    {
        let mut text = self.placed(alloc)?;
        if let Some(name) = &self.name {
            text.push(b' ')?;
            text.extend_from_slice(name.items())?;
        }
        text.push(b'\n')?;
        Ok(text)
    }
}

impl Report {
    /// The status of the report.
    pub fn status(&self) -> Status
        ensures { result ≡ status_of self.now }
    {
        match self {
            Report::Accepted => Status::Done,
            Report::Hazards(_) => Status::Hazards,
            Report::Refused(_) | Report::NoMain | Report::Unbuilt => Status::Refused,
            Report::Usage => Status::Usage,
            Report::Missing(_) | Report::Unread(_) => Status::Unread,
            Report::Limited(_) => Status::Limited,
            Report::NoMemory => Status::NoMemory,
        }
    }

    /// The line of the report.
    ///
    /// Example: of `Report::Hazards(1)`: `hazards 1` and a line feed.
    pub fn text(&self, alloc: Global) -> Result<Vec<u8>, AllocError>
        ensures { IfOk result (λ text. text.items ≡ text_of self.now) }
    {
        match self {
            Report::Accepted => b"accepted\n".to_vec(alloc),
            Report::Hazards(count) => {
                let digits = count.to_string(alloc)?;
                named(alloc, "hazards", digits.as_bytes())
            }
            Report::Refused(refusal) => refusal.text(alloc),
            Report::NoMain => b"error 14 NoMain\n".to_vec(alloc),
            Report::Unbuilt => b"error 24 Unbuilt\n".to_vec(alloc),
            Report::Usage => usage_line().as_bytes().to_vec(alloc),
            Report::Missing(name) => named(alloc, "missing", name.items()),
            Report::Unread(name) => named(alloc, "unread", name.items()),
            Report::Limited(limit) => {
                let kind = limit.kind.word();
                let number = limit.reached;
                let text = format!(in alloc; "limit {kind} {number}\n")?;
                text.as_bytes().to_vec(alloc)
            }
            Report::NoMemory => no_memory_line().as_bytes().to_vec(alloc),
        }
    }
}
