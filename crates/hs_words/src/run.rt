//! The command `run`.

ghost use Rattle.std.specs.Prelude.{◌≡◌, map, IfOk, Some, codes};
ghost use Rattle.std.specs.String.{string_bytes};
ghost use Rattle.clap.specs.Words.{FailsBy, app_of, fault_of, found_of, matches_of, rows_of};
ghost use Rattle.hs_words.specs.Words.{first_word, run_command, IsCommand, IsReadAs};

use crate::arguments::{file, option, option_or, with_arg};
use crate::numbers::{mover, number};
use crate::values::{copy, names_of, text_of, value_of};
use crate::{Command, RunWords, WordsError};
use clap::error::ErrorKind;
use clap::{ArgMatches, Error};
use std::alloc::{AllocError, Global};

/// The command, with its options.
fn run_command<'a>(alloc: Global) -> Result<clap::Command<'a>, AllocError>
    ensures { IfOk result (λ its. app_of its ≡ run_command) }
{
    let bare = clap::Command::new(alloc, "run");
    let tabled = with_arg(bare, option_or(alloc, "table", "table.toml"))?;
    let moved = with_arg(tabled, option_or(alloc, "mover", "still"))?;
    let scripted = with_arg(moved, option(alloc, "script"))?;
    let given = with_arg(scripted, option(alloc, "input"))?;
    let timed = with_arg(given, option_or(alloc, "turns", "1000000"))?;
    with_arg(timed, file(alloc))
}

/// What the command reads of the words.
fn run_matches<'a>(alloc: Global, words: &'a [String]) -> Result<ArgMatches<'a>, Error>
    ensures faults { FailsBy (fault_of run_command (map string_bytes words.now)) result }
    ensures matches { IfOk result (λ matches. rows_of (found_of matches) ≡ matches_of run_command (map string_bytes words.now)) }
{
    let command = run_command(alloc)?;
    command.try_get_matches_from(words)
}

/// The run that was read.
fn run_words(alloc: Global, matches: &ArgMatches<'_>) -> Result<RunWords, WordsError>
    ensures { IsReadAs (rows_of (found_of matches.now)) result }
{
    let Some(mover) = mover(text_of(matches, "mover")) else {
        return Err(WordsError::Usage);
    };
    let Some(turns) = number(text_of(matches, "turns")) else {
        return Err(WordsError::Usage);
    };
    Ok(RunWords {
        table: text_of(matches, "table").to_string(alloc)?,
        mover,
        script: copy(alloc, value_of(matches, "script"))?,
        input: copy(alloc, value_of(matches, "input"))?,
        turns,
        names: names_of(alloc, matches)?,
    })
}

/// The run that the words of the command `run` ask for.
pub(crate) fn run_of(alloc: Global, words: &[String]) -> Result<Command, WordsError>
    requires { first_word (map string_bytes words.now) ≡ Some (codes "run") }
    ensures { IsCommand (map string_bytes words.now) result }
{
    match run_matches(alloc, words) {
        Ok(matches) => Ok(Command::Run(run_words(alloc, &matches)?)),
        Err(error) => match error.kind() {
            ErrorKind::OutOfMemory => Err(WordsError::NoMemory),
            _ => Err(WordsError::Usage),
        },
    }
}
