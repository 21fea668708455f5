//! The reports of runs, and the text of each.

ghost use Rattle.std.specs.Prelude.{◌≡◌, ◌++◌, codes, IfOk};
ghost use Rattle.std.specs.Fmt.{decimal};
ghost use Rattle.hs_report.specs.Texts.{line};
ghost use Rattle.hs_report.specs.Texts.{run_status, run_text, status_of_outcome, status_of_stop};

use crate::{Report, Status};
use hs_base::Bytes;
use hs_meaning::{Outcome, Stop};
use std::alloc::{AllocError, Global};

/// A run that was made, as it is shown.
#[derive(Drop)]
pub struct Ran {
    /// Its text: what it put out, how it ended, and its script.
    pub text: Bytes,
    /// How it ended.
    pub outcome: Outcome,
}

/// What the command `run` answers. `specs/Texts.antt` says what its text is; what each one means is said where it is made, in `hs_command`.
#[derive(Drop)]
pub enum RunReport {
    /// The table is no TOML document.
    NotToml,
    /// The table has no `version`, or another than 1.
    BadVersion,
    /// A routine of the table, or a key of it, is wrong: its name.
    BadEntry(Bytes),
    /// The script is wrong: the number, from 1, of the first such line.
    BadScript(u32),
    /// The input is wrong: the number, from 1, of the first such line.
    BadInput(u32),
    /// There is no run, for a cause that other commands have too.
    Plain(Report),
    /// The run.
    Shown(Ran),
}

/// The status of a stop.
fn status_of_stop(why: Stop) -> Status
    ensures { result ≡ status_of_stop why }
{
    match why {
        Stop::Stale | Stop::Purged => Status::RanStale,
        _ => Status::RanStopped,
    }
}

/// The status of a run by how it ended.
fn status_of_outcome(outcome: Outcome) -> Status
    ensures { result ≡ status_of_outcome outcome }
{
    match outcome {
        Outcome::Finished(_) => Status::Done,
        Outcome::Stopped(why, _) => status_of_stop(why),
        Outcome::TurnsSpent => Status::RanOut,
    }
}

/// The line of a table that has a wrong entry.
fn entry_line(alloc: Global, name: &[u8]) -> Result<Vec<u8>, AllocError>
    ensures { IfOk result (λ text. text.items ≡ line (codes "error 18 BadEntry " ++ name.now)) }
{
    let mut text = b"error 18 BadEntry ".to_vec(alloc)?;
    text.extend_from_slice(name)?;
    text.push(b'\n')?;
    Ok(text)
}

/// The line of a script that is wrong.
fn script_line(alloc: Global, number: u32) -> Result<Vec<u8>, AllocError>
    ensures { IfOk result (λ text. text.items ≡ line (codes "error 19 BadScript line " ++ decimal number)) }
{
    let text = format!(in alloc; "error 19 BadScript line {number}\n")?;
    text.as_bytes().to_vec(alloc)
}

/// The line of an input that is wrong.
fn input_line(alloc: Global, number: u32) -> Result<Vec<u8>, AllocError>
    ensures { IfOk result (λ text. text.items ≡ line (codes "error 23 BadInput line " ++ decimal number)) }
{
    let text = format!(in alloc; "error 23 BadInput line {number}\n")?;
    text.as_bytes().to_vec(alloc)
}

impl RunReport {
    /// The status of the report.
    pub fn status(&self) -> Status
        ensures { result ≡ run_status self.now }
    {
        match self {
            RunReport::NotToml
            | RunReport::BadVersion
            | RunReport::BadEntry(_)
            | RunReport::BadScript(_)
            | RunReport::BadInput(_) => Status::Refused,
            RunReport::Plain(report) => report.status(),
            RunReport::Shown(ran) => status_of_outcome(ran.outcome),
        }
    }

    /// The text of the report: one line, or that of the run.
    ///
    /// Example: of `RunReport::BadScript(2)`: `error 19 BadScript line 2` and a line feed.
    pub fn text(&self, alloc: Global) -> Result<Vec<u8>, AllocError>
        ensures { IfOk result (λ text. text.items ≡ run_text self.now) }
    {
        match self {
            RunReport::NotToml => b"error 16 NotToml\n".to_vec(alloc),
            RunReport::BadVersion => b"error 17 BadVersion\n".to_vec(alloc),
            RunReport::BadEntry(name) => entry_line(alloc, name.items()),
            RunReport::BadScript(number) => script_line(alloc, *number),
            RunReport::BadInput(number) => input_line(alloc, *number),
            RunReport::Plain(report) => report.text(alloc),
            RunReport::Shown(ran) => ran.text.items().to_vec(alloc),
        }
    }
}
