//! Cases over files and a sink in memory.

use crate::command::{status_of, status_with};
use crate::silent::Silent;
use hs_base::NoMemory;
use hs_cases::{File, bytes_of, listing_of, option, parted, push_bytes, words_of};
use hs_memory::{MemFiles, MemSink};
use hs_report::Status;
use std::alloc::{AllocError, Global};

/// How many bytes a call may write here, unless the option `@room` says.
const ROOM: usize = 65_536;

/// The words of the option `@words`, or those that cases of the kind stand for. There are bars between them.
fn line_of<'a>(kind: &str, text: &'a str) -> &'a str {
    match (option(text, "@words "), kind) {
        (Some(words), _) => words,
        (None, "check") => "check|main.c",
        (None, "slide") => "run|--mover|slide|main.c",
        (None, "caller") => "run|--mover|9|main.c",
        (None, _) => "run|main.c",
    }
}

/// The number of an option, as the only one of a list. Without the option it is 0, which is the number of no read and no write.
fn number_of(alloc: Global, text: &str, mark: &str) -> Result<Vec<u64>, AllocError> {
    let number: u64 = option(text, mark).unwrap_or("").parse().unwrap_or(0);
    Ok(vec![in alloc; number]?)
}

/// The files of a text, and those that all cases have.
fn files_of(alloc: Global, shared: &[File], text: &str) -> Result<MemFiles, AllocError> {
    let mut listing = listing_of(alloc, text, Some("main.c"))?;
    for (name, bytes) in shared {
        listing.push((name.clone()?, bytes.clone()?))?;
    }
    Ok(MemFiles::new(listing, number_of(alloc, text, "@failing ")?))
}

/// The sink of a text.
fn sink_of(alloc: Global, text: &str) -> Result<MemSink, NoMemory> {
    let room = option(text, "@room ").unwrap_or("").parse().unwrap_or(ROOM);
    let failing = number_of(alloc, text, "@failing-write ")?;
    Ok(MemSink::new(alloc, room, failing)?)
}

/// A status, and what was written: its lines, with a slash between two, and two dots after a last line that has no line feed.
fn shown(alloc: Global, status: Status, written: &[u8]) -> Result<String, AllocError> {
    let code = status.code();
    let mut words = String::new(alloc);
    push_bytes(&mut words, written)?;
    let lines = words.replace(alloc, "<0a>", " / ")?;
    match lines.as_str().strip_suffix(" / ") {
        Some(lines) => format!(in alloc; "{code} {lines}"),
        None => format!(in alloc; "{code} {lines} .."),
    }
}

/// The words of a call. A case of the kind `wordless` has none.
fn words_in(alloc: Global, kind: &str, text: &str) -> Result<Vec<String>, AllocError> {
    match kind {
        "wordless" => Ok(Vec::new(alloc)),
        _ => words_of(alloc, line_of(kind, text), '|'),
    }
}

/// The mover that the option `@mover` names, or none.
fn mover_of(text: &str) -> Option<Silent> {
    let (name, times) = parted(option(text, "@mover ")?, " ");
    match name {
        "careless" => Some(Silent::Careless),
        "witness" => Some(Silent::Witness),
        "poor" => Some(Silent::Poor),
        _ => Some(Silent::Verbose(times.parse().unwrap_or(0))),
    }
}

/// What a text without escapes is answered by.
fn answer_to(alloc: Global, shared: &[File], kind: &str, text: &str) -> Result<String, NoMemory> {
    let words = words_in(alloc, kind, text)?;
    let mut files = files_of(alloc, shared, text)?;
    let mut out = sink_of(alloc, text)?;
    let status = match kind {
        "caller" => status_with(
            alloc,
            words.as_slice(),
            &mut files,
            &mut out,
            mover_of(text),
        )?,
        _ => status_of(alloc, words.as_slice(), &mut files, &mut out)?,
    };
    Ok(shown(alloc, status, out.written())?)
}

/// What the text of a case is answered by.
pub(crate) fn answer(
    alloc: Global,
    shared: &[File],
    kind: &str,
    text: &str,
) -> Result<String, NoMemory> {
    let bytes = bytes_of(alloc, text)?;
    let text = String::from_utf8_lossy(alloc, &bytes)?;
    answer_to(alloc, shared, kind, text.as_str())
}
