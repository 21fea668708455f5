//! The statuses of a call, and their numbers.

ghost use Rattle.std.specs.Prelude.{◌≡◌};
ghost use Rattle.std.specs.Process.{exit_status};
ghost use Rattle.hs_report.specs.Status.{code_of};

use std::process::ExitCode;

/// What a call of the program came to. `specs/Texts.antt` says which report has which; when each comes is said in `hs_command`.
#[derive(Clone, Copy, Debug, PartialEq, Eq)]
pub enum Status {
    /// The source is accepted or repaired, or the run finished.
    Done,
    /// The source has a hazard.
    Hazards,
    /// A source, a table, a script or an input is not of its form.
    Refused,
    /// The words are no command.
    Usage,
    /// A file is missing or could not be read.
    Unread,
    /// The answer could not be written whole.
    Unwritten,
    /// Memory was refused.
    NoMemory,
    /// A quantity passed its limit.
    Limited,
    /// The source cannot be repaired.
    Unrepairable,
    /// The repaired texts are not the repaired program.
    Disagree,
    /// The run used a stale pointer or a purged handle.
    RanStale,
    /// The run stopped otherwise.
    RanStopped,
    /// The run spent its turns.
    RanOut,
}

impl Status {
    /// The status that the process ends with: the place of the variant, from 0.
    ///
    /// Example: 0 for `Done`, and 1 for `Hazards`.
    pub fn code(self) -> u8
        ensures { result ≡ code_of self }
    {
        match self {
            Status::Done => 0,
            Status::Hazards => 1,
            Status::Refused => 2,
            Status::Usage => 3,
            Status::Unread => 4,
            Status::Unwritten => 5,
            Status::NoMemory => 6,
            Status::Limited => 7,
            Status::Unrepairable => 8,
            Status::Disagree => 9,
            Status::RanStale => 10,
            Status::RanStopped => 11,
            Status::RanOut => 12,
        }
    }
}

/// The process ends with the code of the status.
impl From<Status> for ExitCode {
    ghost from_gives = { λ status code. exit_status code ≡ code_of status };

    fn from(status: Status) -> ExitCode {
        ExitCode::from(status.code())
    }
}
