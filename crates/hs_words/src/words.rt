//! From the words of a call to the command.

ghost use Rattle.std.specs.Prelude.{map};
ghost use Rattle.std.specs.String.{string_bytes};
ghost use Rattle.hs_words.specs.Words.{IsCommand, TakesPlainNames};

use crate::check::check_of;
use crate::run::run_of;
use crate::{Command, WordsError};
use std::alloc::Global;

/// What the words after the program's name ask for.
///
/// Example: `check` and `a.c` ask for the check of `a.c`; `run`, `--turns`, `3` and `a.c` for its run with three turns; `chekc` is not a
/// command.
///
/// # Errors
///
/// As [`WordsError`] says.
pub fn command_of(alloc: Global, words: &[String]) -> Result<Command, WordsError>
    ensures { IsCommand (map string_bytes words.now) result }
{
    let Some((command, _)) = words.split_first() else {
        return Err(WordsError::Usage);
    };
    if command.as_str() == "check" {
        check_of(alloc, words)
    } else if command.as_str() == "run" {
        run_of(alloc, words)
    } else {
        Err(WordsError::Usage)
    }
}

/// A law on the command `check`: names of which none begins with `-` are taken as they stand.
pub fn check_takes_plain_names()
    ensures { TakesPlainNames }
{}
