//! The values that a command reads from the words.

ghost use Rattle.std.specs.Prelude.{◌≡◌, map, IfOk, codes, option_map, unwrap_or, []};
ghost use Rattle.std.specs.String.{string_bytes};
ghost use Rattle.clap.specs.Words.{all_of, first_of, found_of, rows_of};

use clap::ArgMatches;
use std::alloc::{AllocError, Global};

/// Copies of the values.
fn copies(alloc: Global, values: &[&str]) -> Result<Vec<String>, AllocError>
    ensures { IfOk result (λ names. map string_bytes names.items ≡ map (λ value. value.now) values.now) }
{
    let mut names = Vec::new(alloc);
    'values: for value in values {
        names.push(value.to_string(alloc)?)?;
    }
    Ok(names)
}

/// The names of files that a command reads from the words.
pub(crate) fn names_of(alloc: Global, matches: &ArgMatches<'_>) -> Result<Vec<String>, AllocError>
    ensures { IfOk result (λ names. map string_bytes names.items ≡ unwrap_or (all_of (codes "FILE") (rows_of (found_of matches.now))) []) }
{
    match matches.get_raw("FILE") {
        Some(values) => copies(alloc, values),
        None => Ok(Vec::new(alloc)),
    }
}

/// The value of an option, if there is one.
pub(crate) fn value_of<'a>(matches: &ArgMatches<'a>, option: &str) -> Option<&'a str>
    ensures { option_map (λ value. value.now) result ≡ first_of option.now (rows_of (found_of matches.now)) }
{
    matches.get_str(option)
}

/// The value of an option that has a default.
pub(crate) fn text_of<'a>(matches: &ArgMatches<'a>, option: &str) -> &'a str
    ensures { result.now ≡ unwrap_or (first_of option.now (rows_of (found_of matches.now))) [] }
{
    match value_of(matches, option) {
        Some(value) => value,
        None => "",
    }
}

/// A copy of a value, if there is one.
pub(crate) fn copy(alloc: Global, value: Option<&str>) -> Result<Option<String>, AllocError>
    ensures { IfOk result (λ name. option_map string_bytes name ≡ option_map (λ value. value.now) value.entry) }
{
    match value {
        Some(value) => Ok(Some(value.to_string(alloc)?)),
        None => Ok(None),
    }
}
