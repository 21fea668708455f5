//! The files of a case.

use crate::text::{parted, without_options};
use std::alloc::{AllocError, Global};

/// The name of a file, and its bytes.
pub type File = (String, Vec<u8>);

/// One item more.
fn push_next<T: Drop>(list: &mut Vec<T>, next: Result<T, AllocError>) -> Result<(), AllocError> {
    list.push(next?)?;
    Ok(())
}

/// A file with that name and that text.
fn file_of(alloc: Global, name: &str, text: &str) -> Result<File, AllocError> {
    Ok((name.to_string(alloc)?, text.as_bytes().to_vec(alloc)?))
}

/// The file of that name: the lines of a text that are no options.
fn front_file(alloc: Global, name: &str, text: &str) -> Result<File, AllocError> {
    let lines = without_options(alloc, text)?;
    file_of(alloc, name, lines.as_str())
}

/// The files of a text. A line `@file NAME` begins a file: the lines after it, up to the next one. The lines in front of the
/// first such line, without options, are the file that is named `front`, and are no file if that is absent.
pub fn listing_of(alloc: Global, text: &str, front: Option<&str>) -> Result<Vec<File>, AllocError> {
    let mut listing = Vec::new(alloc);
    let mut pieces = text.split("\n@file ");
    let first = pieces.next().unwrap_or("");
    if let Some(name) = front {
        push_next(&mut listing, front_file(alloc, name, first))?;
    }
    for piece in pieces {
        let (name, text) = parted(piece, "\n");
        push_next(&mut listing, file_of(alloc, name, text))?;
    }
    Ok(listing)
}

/// The words of a line, in which that mark is between two words.
pub fn words_of(alloc: Global, line: &str, mark: char) -> Result<Vec<String>, AllocError> {
    let mut words = Vec::new(alloc);
    for word in line.split(mark) {
        push_next(&mut words, word.to_string(alloc))?;
    }
    Ok(words)
}
