//! Directives: files as units, their limits and refusals.

use crate::refusal::{Refusal, at, limited};
use hs_base::{Bytes, Pos};
use hs_cases::{between, bytes_of, listing_of, option, push_bytes, words_of};
use hs_directives::{MacroKind, ReadError, ScanKind, Source, preprocess};
use hs_memory::MemFiles;
use hs_tokens::{Origin, SourceToken};
use std::alloc::{AllocError, Global};

/// The files of a text in memory. The read whose number the option `@failing` says fails; without it, none does, as reads
/// count from 1.
fn files_of(alloc: Global, text: &str) -> Result<MemFiles, AllocError> {
    let number = option(text, "@failing ").unwrap_or("").parse().unwrap_or(0);
    let failing = vec![in alloc; number]?;
    // With roots, no lines are `m.c`.
    let front = match option(text, "@roots") {
        Some(_) => None,
        None => Some("m.c"),
    };
    Ok(MemFiles::new(listing_of(alloc, text, front)?, failing))
}

/// The roots that the option `@roots` names, or `m.c`.
fn roots_of(alloc: Global, text: &str) -> Result<Vec<String>, AllocError> {
    let names = option(text, "@roots").unwrap_or(" m.c");
    match names.strip_prefix(' ') {
        Some(names) => words_of(alloc, names, ' '),
        None => Ok(Vec::new(alloc)),
    }
}

/// The refusal of a named file in words.
fn named(alloc: Global, kind: &str, name: &Bytes) -> Result<String, AllocError> {
    let mut words = format!(in alloc; "!{kind} ")?;
    push_bytes(&mut words, name.items())?;
    Ok(words)
}

/// A refusal in words, after a mark: its kind, and the place, the name or the number.
fn refusal(alloc: Global, error: &ReadError) -> Result<String, AllocError> {
    let (kind, pos) = match error {
        ReadError::Scan(ScanKind::BadByte, pos) => ("BadByte", *pos),
        ReadError::Scan(ScanKind::OpenComment, pos) => ("OpenComment", *pos),
        ReadError::Scan(ScanKind::OpenString, pos) => ("OpenString", *pos),
        ReadError::Macro(MacroKind::BadMacro, pos) => ("BadMacro", *pos),
        ReadError::Macro(MacroKind::ArgCount, pos) => ("ArgCount", *pos),
        ReadError::BadDirective(pos) => ("BadDirective", *pos),
        ReadError::OpenIf(pos) => ("OpenIf", *pos),
        ReadError::IncludeDepth(pos) => ("IncludeDepth", *pos),
        ReadError::BadCondition(pos) => ("BadCondition", *pos),
        ReadError::Missing(name) => return named(alloc, "Missing", name),
        ReadError::ReadFault(name) => return named(alloc, "ReadFault", name),
        ReadError::Limit(limit) => return limited(alloc, *limit),
        ReadError::NoMemory => return "!NoMemory".to_string(alloc),
    };
    at(alloc, kind, pos)
}

/// Appends a token; and its place, and whether it comes from a macro, if `placed`.
fn push_token(words: &mut String, placed: bool, source: &SourceToken) -> Result<(), AllocError> {
    words.push_str(between(words.as_str(), " "))?;
    push_bytes(words, source.token.text.items())?;
    if placed {
        let Pos { file, line, col } = source.token.pos;
        let origin = match source.origin {
            Origin::Plain => "",
            Origin::Macro => " macro",
        };
        write!(words, " {file}:{line}:{col}{origin}")?;
    }
    Ok(())
}

/// The units' tokens, a space between two, and a bar after each unit but the last.
fn spelled(alloc: Global, source: &Source, placed: bool) -> Result<String, AllocError> {
    let mut words = String::new(alloc);
    let mut later = false;
    for unit in source.units.items() {
        if later {
            words.push_str(between(words.as_str(), " "))?;
            words.push('|')?;
        }
        later = true;
        for token in unit.items() {
            push_token(&mut words, placed, token)?;
        }
    }
    Ok(words)
}

/// How many tokens each unit has.
fn lengths(alloc: Global, source: &Source) -> Result<String, AllocError> {
    let mut words = String::new(alloc);
    for unit in source.units.items() {
        let space = between(words.as_str(), " ");
        write!(words, "{space}{}", unit.items().len())?;
    }
    Ok(words)
}

/// Names or texts, a space between two.
fn listed(alloc: Global, names: &[Bytes]) -> Result<String, AllocError> {
    let mut words = String::new(alloc);
    for name in names {
        words.push_str(between(words.as_str(), " "))?;
        push_bytes(&mut words, name.items())?;
    }
    Ok(words)
}

/// Numbers, a space between two.
fn counted(alloc: Global, numbers: &[u16]) -> Result<String, AllocError> {
    let mut words = String::new(alloc);
    for number in numbers {
        let space = between(words.as_str(), " ");
        write!(words, "{space}{number}")?;
    }
    Ok(words)
}

/// A source in words, with semicolons between: the units, the names of the files, the roots' numbers, those of the included files,
/// and how many units there are.
fn summary(alloc: Global, source: &Source) -> Result<String, AllocError> {
    let words = spelled(alloc, source, false)?;
    let names = listed(alloc, source.names.items())?;
    let roots = counted(alloc, source.roots.items())?;
    let included = counted(alloc, source.included.items())?;
    let units = source.units.items().len();
    format!(in alloc; "{words}; {names}; {roots}; {included}; {units}")
}

/// The changes of macros in the units, a bar after each unit but the last.
fn changes(alloc: Global, source: &Source) -> Result<String, AllocError> {
    let mut words = String::new(alloc);
    let mut later = false;
    for unit in source.changes.items() {
        if later {
            words.push_str(" |")?;
        }
        later = true;
        for change in unit.items() {
            let space = between(words.as_str(), " ");
            let word = if change.on { "on" } else { "off" };
            write!(words, "{space}{word} ")?;
            push_bytes(&mut words, change.name.items())?;
            let Pos { file, line, col } = change.pos;
            write!(words, " {file}:{line}:{col}")?;
        }
    }
    Ok(words)
}

/// What a source is in words of that kind.
fn described(alloc: Global, kind: &str, source: &Source) -> Result<String, AllocError> {
    match kind {
        "lengths" => lengths(alloc, source),
        "summary" => summary(alloc, source),
        "changes" => changes(alloc, source),
        "origins" => spelled(alloc, source, true),
        "texts" => listed(alloc, source.texts.items()),
        _ => spelled(alloc, source, false),
    }
}

/// What the roots of a text are read as, in words of that kind.
fn read(alloc: Global, kind: &str, text: &str) -> Result<String, AllocError> {
    let roots = roots_of(alloc, text)?;
    let mut files = files_of(alloc, text)?;
    match preprocess(alloc, &mut files, &roots) {
        Ok(source) => described(alloc, kind, &source),
        Err(error) => refusal(alloc, &error),
    }
}

/// What a text of that kind is answered by.
pub fn answer(alloc: Global, kind: &str, text: &str) -> Result<String, Refusal> {
    let bytes = bytes_of(alloc, text)?;
    let text = String::from_utf8_lossy(alloc, &bytes)?;
    Ok(read(alloc, kind, text.as_str())?)
}
