//! The command `check`.

ghost use Rattle.std.specs.Prelude.{◌≡◌, map, IfOk, Some, codes};
ghost use Rattle.std.specs.String.{string_bytes};
ghost use Rattle.clap.specs.Words.{FailsBy, fault_of, found_of, matches_of, rows_of};
ghost use Rattle.hs_words.specs.Words.{check_command, first_word, IsCommand};

use crate::arguments::{file, with_arg};
use crate::values::names_of;
use crate::{Command, WordsError};
use clap::error::ErrorKind;
use clap::{ArgMatches, Error};
use std::alloc::Global;

/// What the command `check` reads of the words.
fn check_matches<'a>(alloc: Global, words: &'a [String]) -> Result<ArgMatches<'a>, Error>
    ensures faults { FailsBy (fault_of check_command (map string_bytes words.now)) result }
    ensures matches { IfOk result (λ matches. rows_of (found_of matches) ≡ matches_of check_command (map string_bytes words.now)) }
{
    let command = with_arg(clap::Command::new(alloc, "check"), file(alloc))?;
    command.try_get_matches_from(words)
}

/// The check that the words of the command `check` ask for.
pub(crate) fn check_of(alloc: Global, words: &[String]) -> Result<Command, WordsError>
    requires { first_word (map string_bytes words.now) ≡ Some (codes "check") }
    ensures { IsCommand (map string_bytes words.now) result }
{
    match check_matches(alloc, words) {
        Ok(matches) => Ok(Command::Check(names_of(alloc, &matches)?)),
        Err(error) => match error.kind() {
            ErrorKind::OutOfMemory => Err(WordsError::NoMemory),
            _ => Err(WordsError::Usage),
        },
    }
}
