//! The files of the system, as `Files`.

ghost use Rattle.std.specs.Prelude.{◌≡◌, ◌≢◌, ◌+◌, ◌-◌, ◌^◌, ◌<◌, ◌≤◌, ◌↔◌, ◌++◌, [], length, take, min, None, Err, OnOk, OnErr, IfErr, IfSome};
ghost use Rattle.std.specs.IoError.{error_kind};
ghost use Rattle.std.specs.Result.{IsErrAnd, IsOkAnd};
ghost use Rattle.hs_base.specs.Files.{NeverFall, IsRead, counts_after, read_of};

use hs_base::{FileEnd, Files};
use std::io::{ErrorKind, Read};
use std::{fs, io};

/// The files of the system, by path. Nothing is known of their names and bytes: what a real file holds is not proved.
/// A file that is not found is a miss; any other error is a fault, except that memory ran out.
#[derive(Drop)]
pub struct HostFiles<R: fs::Files + Drop> {
    system: R,
    misses: u64,
    faults: u64,
}

impl<R: fs::Files + Drop> HostFiles<R> {
    /// The files that the runtime reaches. No read was made.
    pub fn new(system: R) -> HostFiles<R>
        ensures misses { result.misses ≡ 0 }
        ensures faults { result.faults ≡ 0 }
    {
        HostFiles {
            system,
            misses: 0,
            faults: 0,
        }
    }
}

/// Says why a file could not be opened.
fn not_opened(error: &io::Error) -> FileEnd
    ensures missing { result ≡ FileEnd.Missing ↔ error_kind error.now ≡ ErrorKind.NotFound }
    ensures memory { result ≡ FileEnd.NoMemory ↔ error_kind error.now ≡ ErrorKind.OutOfMemory }
    ensures failed { result ≡ FileEnd.Failed ↔ (error_kind error.now ≢ ErrorKind.NotFound) × (error_kind error.now ≢ ErrorKind.OutOfMemory) }
    ensures long { result ≢ FileEnd.TooLong }
{
    match error.kind() {
        ErrorKind::NotFound => FileEnd::Missing,
        ErrorKind::OutOfMemory => FileEnd::NoMemory,
        _ => FileEnd::Failed,
    }
}

/// Says why a file that was opened could not be read.
fn not_read(error: &io::Error) -> FileEnd
    ensures memory { result ≡ FileEnd.NoMemory ↔ error_kind error.now ≡ ErrorKind.OutOfMemory }
    ensures failed { result ≡ FileEnd.Failed ↔ error_kind error.now ≢ ErrorKind.OutOfMemory }
    ensures found { result ≢ FileEnd.Missing }
    ensures long { result ≢ FileEnd.TooLong }
{
    match error.kind() {
        ErrorKind::OutOfMemory => FileEnd::NoMemory,
        _ => FileEnd::Failed,
    }
}

/// Appends the bytes of the reader, to its end or to one byte past `max`.
fn read_front<T: Read + Drop>(from: T, max: usize, into: &mut Vec<u8>) -> io::Result<()>
    ensures { OnOk result (IfSome (T.remaining from) (λ bytes. into.new.items ≡ into.old.items ++ take (min (max + 1) (2 ^ 64 - 1)) bytes)) }
{
    let limit = (max as u64).saturating_add(1);
    from.take(limit).read_to_end(into)?;
    Ok(())
}

/// Accepts what was read if it is not more than `max` bytes.
fn fitted(into: &mut Vec<u8>, max: usize) -> Result<(), FileEnd>
    ensures fits { OnOk result ((length into.old.items ≤ max) × (into.new.items ≡ into.old.items)) }
    ensures long { OnErr result ((max < length into.old.items) × (into.new.items ≡ [])) }
    ensures end { IfErr result (λ end. end ≡ FileEnd.TooLong) }
{
    if into.len() > max {
        into.clear();
        return Err(FileEnd::TooLong);
    }
    Ok(())
}

/// Moves the bytes of a file that was opened into `into`, instead of what was there, if they are at most `max`.
///
/// No clause says when the read of an opened file fails: std does not say it of a reader.
fn taken<T: Read + Drop>(
    opened: io::Result<T>,
    max: usize,
    into: &mut Vec<u8>,
) -> Result<(), FileEnd>
    // If the bytes of the reader are known, these are all of them. So it is refused if they are more than `max`.
    ensures whole { OnOk result (IsOkAnd opened (λ file. IfSome (T.remaining file) (λ bytes. into.new.items ≡ bytes))) }
    ensures fits { OnOk result (length into.new.items ≤ max) }
    ensures long { result ≡ Err FileEnd.TooLong → IsOkAnd opened (λ file. IfSome (T.remaining file) (λ bytes. max < length bytes)) }

    // A file that was not opened is answered by the kind of the error.
    ensures missing { result ≡ Err FileEnd.Missing ↔ IsErrAnd opened (λ error. error_kind error ≡ ErrorKind.NotFound) }
    ensures memory { IfErr opened (λ error. result ≡ Err FileEnd.NoMemory ↔ error_kind error ≡ ErrorKind.OutOfMemory) }
    ensures failed { IfErr opened (λ error. result ≡ Err FileEnd.Failed ↔ (error_kind error ≢ ErrorKind.NotFound) × (error_kind error ≢ ErrorKind.OutOfMemory)) }

    ensures emptied { OnErr result (into.new.items ≡ []) }
{
    into.clear();
    match opened {
        Ok(file) => match read_front(file, max, into) {
            Ok(()) => fitted(into, max),
            Err(error) => {
                into.clear();
                Err(not_read(&error))
            }
        },
        Err(error) => Err(not_opened(&error)),
    }
}

impl<R: fs::Files + Drop> Files for HostFiles<R> {
    ghost listing = { λ _. None };

    ghost counts = { λ files. record { misses = files.misses; faults = files.faults } };

    fn read(&mut self, name: &str, max: usize, into: &mut Vec<u8>) -> Result<(), FileEnd>
        ensures means { IsRead None (read_of name.now max into.new.items result (record { misses = self.old.misses; faults = self.old.faults }) (record { misses = self.new.misses; faults = self.new.faults })) }
        ensures counts_stay_up { NeverFall (record { misses = self.old.misses; faults = self.old.faults }) (record { misses = self.new.misses; faults = self.new.faults }) }
        ensures emptied { OnErr result (into.new.items ≡ []) }
        // If the system exposes the bytes of its files, these are all the bytes of one of them.
        ensures whole { OnOk result ((file : R.File) × IfSome (R.File.remaining file) (λ bytes. into.new.items ≡ bytes)) }
        ensures long { result ≡ Err FileEnd.TooLong → (file : R.File) × IfSome (R.File.remaining file) (λ bytes. max < length bytes) }
        ensures counted { record { misses = self.new.misses; faults = self.new.faults } ≡ counts_after (record { misses = self.old.misses; faults = self.old.faults }) result }
    {
        let answer = taken(fs::open(&self.system, name), max, into);
        match answer {
            Err(FileEnd::Missing) => self.misses = self.misses.saturating_add(1),
            Err(FileEnd::Failed) => self.faults = self.faults.saturating_add(1),
            Ok(()) | Err(FileEnd::TooLong | FileEnd::NoMemory) => {}
        }
        answer
    }
}
