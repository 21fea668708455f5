//! Cases over the files of the folder.

use crate::command::status_of;
use hs_cases::{parted, words_of};
use hs_host::HostFiles;
use hs_memory::MemSink;
use std::rt::Files;
use std::{fs, io};

/// How many bytes a call may write here.
const ROOM: usize = 65_536;

/// The status that a call with these words ends with, and the name of the file if what it writes are the bytes of that file.
fn status_and_name<R: Files + AllocGlobal>(rt: &R, line: &str, name: &str) -> io::Result<String> {
    let alloc = rt.alloc();
    let words = words_of(alloc, line, ' ')?;
    let Ok(mut out) = MemSink::new(alloc, ROOM, Vec::new(alloc)) else {
        return Err(io::Error::from(io::ErrorKind::OutOfMemory));
    };
    let code = status_of(alloc, words.as_slice(), &mut HostFiles::new(rt), &mut out)?.code();
    let text = fs::read(rt, name)?;
    let shown = if out.written() == text.as_slice() {
        name
    } else {
        "another text"
    };
    Ok(format!(in alloc; "{code} {shown}")?)
}

/// What the words of a case are answered by, beside the file that its answer names after a status.
pub(crate) fn answer<R: Files + AllocGlobal>(
    rt: &R,
    line: &str,
    wanted: &str,
) -> io::Result<String> {
    let (_, name) = parted(wanted, " ");
    status_and_name(rt, line, name)
}
