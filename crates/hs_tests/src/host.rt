//! The files and the standard output of the system.

use hs_base::{FileEnd, Files, Sink};
use hs_host::{HostFiles, HostSink};
use std::alloc::Global;
use std::io::Write;
use std::test::Fail;
use std::{env, fs, io};

/// So many copies of a text, one after another.
fn copies(alloc: Global, text: &str, count: usize) -> Result<String, Fail> {
    let mut all = String::new(alloc);
    for _ in 0..count {
        all.push_str(text)?;
    }
    Ok(all)
}

// A real file, one that is not there, and a folder instead of a file.
#[test]
fn host_files_read_the_system(rt: HostRuntime) -> Result<(), Fail> {
    let alloc = rt.alloc();
    let folder = env::temp_dir(&rt)?;
    let folder = folder.as_path();
    let Some(folder) = folder.to_str() else {
        return Err(Fail::from("the folder's name is no text"));
    };
    let name = format!(in alloc; "{folder}/handlecheck-host-files.c")?;
    fs::write(&rt, name.as_str(), "int x;\n")?;
    let mut files = HostFiles::new(&rt);
    let mut into = Vec::new(alloc);
    assert!(rt; files.read(name.as_str(), 7, &mut into) == Ok(()));
    assert!(rt; into.as_slice() == b"int x;\n".as_slice());
    assert!(rt; files.read(name.as_str(), 6, &mut into) == Err(FileEnd::TooLong));
    assert!(rt; into.is_empty());
    fs::remove_file(&rt, name.as_str())?;
    assert!(rt; files.read(name.as_str(), 7, &mut into) == Err(FileEnd::Missing));
    assert!(rt; files.read(folder, 7, &mut into) == Err(FileEnd::Failed));
    Ok(())
}

/// Whether the file of that name has this text.
fn is_read_as(rt: &HostRuntime, name: &str, text: &str) -> bool {
    let mut into = Vec::new(rt.alloc());
    let answer = HostFiles::new(rt).read(name, 4_194_304, &mut into);
    answer == Ok(()) && into.as_slice() == text.as_bytes()
}

// A file that is longer than a buffer of the system, and one that is named from the folder of the process.
#[test]
fn host_files_read_whole_files(rt: HostRuntime) -> Result<(), Fail> {
    let alloc = rt.alloc();
    let folder = env::temp_dir(&rt)?;
    let Some(folder) = folder.as_path().to_str() else {
        return Err(Fail::from("the folder's name is no text"));
    };
    let name = format!(in alloc; "{folder}/handlecheck-long-file.c")?;
    let text = copies(alloc, "int x;\n", 10_000)?;
    fs::write(&rt, name.as_str(), text.as_str())?;
    assert!(rt; is_read_as(&rt, name.as_str(), text.as_str()));
    // The folder above the root is the root.
    let up = copies(alloc, "../", 40)?;
    let relative = format!(in alloc; "{up}{name}")?;
    assert!(rt; is_read_as(&rt, relative.as_str(), text.as_str()));
    fs::remove_file(&rt, name.as_str())?;
    Ok(())
}

/// A writer that counts what is written only when it is flushed, and whose first write is interrupted.
#[derive(Drop)]
struct Holding<'a> {
    was_interrupted: bool,
    held: usize,
    flushed: &'a mut usize,
}

impl Write for Holding<'_> {
    fn write(&mut self, buf: &[u8]) -> io::Result<usize> {
        if !self.was_interrupted {
            self.was_interrupted = true;
            return Err(io::Error::from(io::ErrorKind::Interrupted));
        }
        self.held = self.held.saturating_add(buf.len());
        Ok(buf.len())
    }

    fn flush(&mut self) -> io::Result<()> {
        *self.flushed = self.flushed.saturating_add(self.held);
        self.held = 0;
        Ok(())
    }
}

// A put repeats a write that was interrupted, and ends with a flush.
#[test]
fn a_put_is_flushed(rt: HostRuntime) -> Result<(), Fail> {
    let mut flushed = 0;
    let mut sink = HostSink::new(Holding {
        was_interrupted: false,
        held: 0,
        flushed: &mut flushed,
    });
    let succeeds = sink.put(b"line").is_ok();
    drop(sink);
    assert!(rt; succeeds);
    assert_eq!(rt; flushed, 4);
    Ok(())
}

/// A writer that takes so many bytes, and then fails; its flush fails when it is set to.
#[derive(Drop)]
struct Narrow {
    room: usize,
    flush_fails: bool,
}

impl Write for Narrow {
    fn write(&mut self, buf: &[u8]) -> io::Result<usize> {
        let taken = buf.len().min(self.room);
        self.room -= taken;
        Ok(taken)
    }

    fn flush(&mut self) -> io::Result<()> {
        if self.flush_fails {
            return Err(io::Error::from(io::ErrorKind::Other));
        }
        Ok(())
    }
}

// A write that takes nothing and a flush that fails are faults.
#[test]
fn a_host_sink_fails_with_its_writer(rt: HostRuntime) -> Result<(), Fail> {
    for (room, flush_fails, succeeds) in [(4, false, true), (3, false, false), (4, true, false)] {
        let mut sink = HostSink::new(Narrow { room, flush_fails });
        assert_eq!(rt; sink.put(b"line").is_ok(), succeeds, "{room} {flush_fails}");
    }
    let mut standard_output = HostSink::new(io::writer(&rt));
    assert!(rt; standard_output.put(b"a line of a test\n").is_ok());
    Ok(())
}
