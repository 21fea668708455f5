//! The texts of cases: their options, the bytes that they write by number or repeat, and bytes as words.

ghost use Rattle.std.specs.Prelude.{◌≡◌, ◌==◌, [], length, if◌then◌else◌};
ghost use Rattle.hs_cases.specs.Texts.{Divides};

use std::alloc::{AllocError, Global};

/// Where a text divides at a mark; if the mark is not there, the second part is empty.
pub fn parted<'a>(text: &'a str, mark: &str) -> (&'a str, &'a str)
    ensures { Divides text.now mark.now result.0.now result.1.now }
{
    match text.split_once(mark) {
        Some(parts) => parts,
        None => (text, ""),
    }
}

/// What is after the mark on the first line that begins with it.
pub fn option<'a>(text: &'a str, mark: &str) -> Option<&'a str> {
    for line in text.split('\n') {
        if let Some(value) = line.strip_prefix(mark) {
            return Some(value);
        }
    }
    None
}

/// The lines of a text that are no options: those that do not begin with `@`.
pub fn without_options(alloc: Global, text: &str) -> Result<String, AllocError> {
    let mut lines = String::new(alloc);
    let mut later = false;
    for line in text.split('\n') {
        if line.starts_with('@') {
            continue;
        }
        if later {
            lines.push('\n')?;
        }
        later = true;
        lines.push_str(line)?;
    }
    Ok(lines)
}

/// Appends the turn of a repeated text: `{n}` is the turn's number, counted from 0, and `{n+1}` the next one.
fn push_turn(bytes: &mut Vec<u8>, alloc: Global, text: &str, turn: u32) -> Result<(), AllocError> {
    let next = turn.saturating_add(1);
    if text.contains('{') {
        let numbered = text.replace(alloc, "{n}", format!(in alloc; "{turn}")?.as_str())?;
        let numbered = numbered.replace(alloc, "{n+1}", format!(in alloc; "{next}")?.as_str())?;
        return bytes.extend_from_slice(numbered.as_bytes());
    }
    bytes.extend_from_slice(text.as_bytes())
}

/// Appends what is between `<` and `>`, if that is a byte in two hexadecimal digits, or a number of times, `*` and a text.
/// Says whether it is.
fn push_escape(bytes: &mut Vec<u8>, alloc: Global, code: &str) -> Result<bool, AllocError> {
    if let Some((times, text)) = code.split_once('*')
        && let Ok(times) = times.parse::<u32>()
    {
        for turn in 0..times {
            push_turn(bytes, alloc, text, turn)?;
        }
        return Ok(true);
    }
    match u8::from_str_radix(code, 16) {
        Ok(byte) if code.len() == 2 => {
            bytes.push(byte)?;
            Ok(true)
        }
        _ => Ok(false),
    }
}

/// The bytes of a text, in which `<0d>` is the byte of that number, and `<30*x>` is `x` thirty times.
pub fn bytes_of(alloc: Global, text: &str) -> Result<Vec<u8>, AllocError> {
    let mut bytes = Vec::new(alloc);
    let mut pieces = text.split('<');
    bytes.extend_from_slice(pieces.next().unwrap_or("").as_bytes())?;
    for piece in pieces {
        let (code, after) = parted(piece, ">");
        if push_escape(&mut bytes, alloc, code)? {
            bytes.extend_from_slice(after.as_bytes())?;
        } else {
            bytes.push(b'<')?;
            bytes.extend_from_slice(piece.as_bytes())?;
        }
    }
    Ok(bytes)
}

/// Appends bytes as words: one that is not printable as its number, like `<0d>`.
pub fn push_bytes(words: &mut String, bytes: &[u8]) -> Result<(), AllocError> {
    for byte in bytes {
        match byte {
            b' '..=b'~' => words.push(char::from(*byte))?,
            _ => write!(words, "<{byte:02x}>")?,
        }
    }
    Ok(())
}

/// The separator between the words that there are and the next one.
pub fn between(words: &str, separator: &'static str) -> &'static str
    ensures { result.now ≡ (if length words.now == 0 then [] else separator.now) }
{
    if words.is_empty() { "" } else { separator }
}
