//! Files and a sink in memory.

use hs_base::{FileEnd, Files, Sink};
use hs_memory::{MemFiles, MemSink};
use std::alloc::{AllocError, Global};
use std::process::Abort;
use std::test::Fail;

/// A name, the most bytes that may be read, the answer to the read, and the bytes after it.
type Read<'a> = (&'a str, usize, Result<(), FileEnd>, &'a [u8]);

/// The reads have these answers, one after the other.
fn answer_so(rt: &impl Abort, files: &mut MemFiles, into: &mut Vec<u8>, rows: &[Read<'_>]) {
    for (name, max, answer, bytes) in rows {
        assert!(rt; files.read(name, *max, into) == *answer, "{name} {max}");
        assert!(rt; into.as_slice() == *bytes, "{name} {max}");
    }
}

/// Two files, of whose reads the first and the third fail.
fn two_files(alloc: Global) -> Result<MemFiles, AllocError> {
    let failing = vec![in alloc; 1, 3]?;
    let listing = vec![in alloc;
        ("a".to_string(alloc)?, b"text".to_vec(alloc)?),
        ("b".to_string(alloc)?, Vec::new(alloc)),
    ]?;
    Ok(MemFiles::new(listing, failing))
}

// A read that is numbered as failing fails, and the next ones answer by the listing.
#[test]
fn files_in_memory_answer_by_number_and_name(rt: HostRuntime) -> Result<(), Fail> {
    let alloc = rt.alloc();
    let expected: [Read<'_>; 7] = [
        ("a", 4, Err(FileEnd::Failed), b""),
        ("a", 4, Ok(()), b"text"),
        ("a", 4, Err(FileEnd::Failed), b""),
        ("a", 3, Err(FileEnd::TooLong), b""),
        ("b", 0, Ok(()), b""),
        ("c", 4, Err(FileEnd::Missing), b""),
        ("a", 5, Ok(()), b"text"),
    ];
    let mut into = b"before".to_vec(alloc)?;
    let mut files = two_files(alloc)?;
    answer_so(&rt, &mut files, &mut into, &expected);
    Ok(())
}

/// A piece, whether its put succeeds, and the bytes after it.
type Put<'a> = (&'a [u8], bool, &'a [u8]);

/// The puts succeed so, one after the other.
fn write_so(rt: &impl Abort, sink: &mut MemSink, rows: &[Put<'_>]) {
    for (piece, succeeds, written) in rows {
        assert!(rt; sink.put(piece).is_ok() == *succeeds);
        assert!(rt; sink.written() == *written);
    }
}

// A put that fails by its number writes half of its piece, and one that does not fit writes what fits.
#[test]
fn a_sink_in_memory_writes_fronts_where_it_fails(rt: HostRuntime) -> Result<(), Fail> {
    let alloc = rt.alloc();
    let expected: [Put<'_>; 4] = [
        (b"ab", true, b"ab"),
        (b"xyz", false, b"abx"),
        (b"cde", true, b"abxcde"),
        (b"f", false, b"abxcde"),
    ];
    let mut sink = MemSink::new(alloc, 6, vec![in alloc; 2]?)?;
    write_so(&rt, &mut sink, &expected);
    Ok(())
}
