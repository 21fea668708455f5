//! Finds the file of a name: it is read and scanned once.

ghost use Rattle.std.specs.Prelude.{◌≡◌, ◌≤◌, ◌<◌, length, IfOk};
ghost use Rattle.hs_base.specs.Files.{NeverFall};
ghost use Rattle.hs_base.specs.Limit.{number_of};
ghost use Rattle.hs_base.specs.Reads.{Makes};
ghost use Rattle.hs_base.specs.declared.limit.LimitKind.TheVariants.{FileBytes};
ghost use Rattle.hs_tokens.specs.Scan.{scan_of};
ghost use Rattle.hs_directives.specs.States.{of_scan, scanned_file, found_file};
ghost use Rattle.hs_directives.specs.Readings.{FailsAs, IsText, IsReading, found_of};
ghost use Rattle.hs_directives.specs.Outcomes.{Gives, ReadsNone};
ghost use Rattle.hs_directives.specs.Reads.{ReadsInTurn};

use crate::error::{ReadError, ScanKind};
use crate::file_tokens::FileTokens;
use crate::state::{File, KnownFile, Progress};
use hs_base::{Bytes, FileEnd, Files, LimitKind};
use hs_tokens::{ScanError, scan};
use std::alloc::{AllocError, Global};

/// A refusal of the scanner.
fn of_scan(error: ScanError) -> ReadError
    ensures error { result ≡ of_scan error }
    ensures reads_none { ReadsNone result }
{
    match error {
        ScanError::BadByte(pos) => ReadError::Scan(ScanKind::BadByte, pos),
        ScanError::OpenComment(pos) => ReadError::Scan(ScanKind::OpenComment, pos),
        ScanError::OpenString(pos) => ReadError::Scan(ScanKind::OpenString, pos),
        ScanError::Limit(limit) => ReadError::Limit(limit),
        ScanError::NoMemory => ReadError::NoMemory,
    }
}

/// The name, as bytes.
fn name_of(alloc: Global, name: &str) -> Result<Bytes, AllocError>
    ensures { IfOk result (λ bytes. bytes ≡ name.now) }
{
    Ok(Bytes::from_vec(name.as_bytes().to_vec(alloc)?))
}

/// Why a read of the named file gave no bytes.
fn unread(alloc: Global, name: &str, end: FileEnd) -> ReadError
    ensures { FailsAs name.now end result }
{
    match end {
        FileEnd::Missing => name_of(alloc, name).map_or(ReadError::NoMemory, ReadError::Missing),
        FileEnd::Failed => name_of(alloc, name).map_or(ReadError::NoMemory, ReadError::ReadFault),
        FileEnd::TooLong => ReadError::Limit(LimitKind::FileBytes.passed()),
        FileEnd::NoMemory => ReadError::NoMemory,
    }
}

/// The bytes of the named file.
fn text_of<F: Files>(alloc: Global, files: &mut F, name: &str) -> Result<Vec<u8>, ReadError>
    ensures listing_stays { F.listing files.new ≡ F.listing files.old }
    ensures counts_stay_up { NeverFall (F.counts files.old) (F.counts files.new) }
    ensures read { IsText (Makes F.leads_to F.listing F.counts) files.old files.new name.now (F.counts files.old) (F.counts files.new) result }
    ensures short { IfOk result (λ text. length text.items ≤ number_of FileBytes) }
{
    let mut text = Vec::new(alloc);
    match files.read(name, 4_194_304, &mut text) {
        Ok(()) => Ok(text),
        Err(end) => Err(unread(alloc, name, end)),
    }
}

/// Scans a file that was read, which is the last so far.
fn scanned_file(
    alloc: Global,
    name: &str,
    text: Vec<u8>,
    progress: &mut Progress,
) -> Result<KnownFile, ReadError>
    requires few { length progress.old.files < 256 }
    requires within { length text.items ≤ 4194304 }
    ensures { Gives (found_of progress.new) (scanned_file name.now text.items progress.old
        (scan_of (length progress.old.files) progress.old.room text.items)) result }
{
    let number = progress.files.len();
    let tokens = match scan(alloc, &text, number, progress.room) {
        Ok(tokens) => tokens,
        Err(error) => return Err(of_scan(error)),
    };
    let room = progress.room.saturating_sub(tokens.len());
    let tokens = FileTokens::from_vec(alloc, tokens)?;
    progress.files.push(File {
        name: name_of(alloc, name)?,
        text: Bytes::from_vec(text),
        tokens: tokens.shared()?,
    })?;
    progress.room = room;
    Ok(KnownFile { number, tokens })
}

/// The file of that name: read and scanned at its first mention.
pub(crate) fn found_file<F: Files>(
    alloc: Global,
    files: &mut F,
    name: &str,
    progress: &mut Progress,
) -> Result<KnownFile, ReadError>
    ensures listing_stays { F.listing files.new ≡ F.listing files.old }
    ensures counts_stay_up { NeverFall (F.counts files.old) (F.counts files.new) }
    ensures means { IsReading progress.old.files progress.new.files
        (found_of progress.new) (λ listing. found_file listing name.now progress.old) result }
    ensures reads { ReadsInTurn (Makes F.leads_to F.listing F.counts) files.old files.new progress.old.files progress.new.files
        (λ listing. found_file listing name.now progress.old) result }
{
    if let Some(known) = progress.files.known(name.as_bytes())? {
        return Ok(known);
    }
    if progress.files.len() >= 256 {
        return Err(ReadError::Limit(LimitKind::Files.passed()));
    }
    let text = text_of(alloc, files, name)?;
    scanned_file(alloc, name, text, progress)
}
