//! A writer of the system, as `Sink`.

ghost use Rattle.std.specs.Prelude.{◌≡◌, None, OnOk, OnErr};
ghost use Rattle.std.specs.Io.KnownBytes.{Appends, Keeps};
ghost use Rattle.hs_base.specs.Count.{raised};
ghost use Rattle.hs_base.specs.Sink.{IsPut};
ghost use Rattle.hs_host.specs.Host.{AppendsFront};

use hs_base::{Failed, Sink};
use std::io::{ErrorKind, Write};

/// A writer of the system, as standard output. Nothing is known of its bytes: what reaches a real stream is not proved.
/// A write that fails or takes no byte, and a flush that fails, are faults.
///
/// If a writer exposes the bytes that it holds, a put appends its piece, or a front of it if it fails. Two things are left
/// open, because std does not say them of a writer: when a write or a flush fails, and that a flush moves the bytes on.
#[derive(Drop)]
pub struct HostSink<W: Write + Drop> {
    writer: W,
    faults: u64,
    /// How often a flush of the writer succeeded.
    flushes: u64,
}

impl<W: Write + Drop> HostSink<W> {
    /// The sink over the writer. No put was made.
    pub fn new(writer: W) -> HostSink<W>
        ensures writer { result.writer ≡ writer }
        ensures faults { result.faults ≡ 0 }
        ensures flushes { result.flushes ≡ 0 }
    {
        HostSink {
            writer,
            faults: 0,
            flushes: 0,
        }
    }

    /// Flushes the writer. Only this function counts flushes, each one that succeeds.
    fn flush(&mut self) -> Result<(), Failed>
        ensures counted { OnOk result (self.new.flushes ≡ raised self.old.flushes) }
        ensures failed { OnErr result (self.new.flushes ≡ self.old.flushes) }
        ensures same_faults { self.new.faults ≡ self.old.faults }
        ensures same_bytes { Keeps (W.contents self.old.writer) (W.contents self.new.writer) }
    {
        match self.writer.flush() {
            Ok(()) => {
                self.flushes = self.flushes.saturating_add(1);
                Ok(())
            }
            Err(_) => Err(Failed),
        }
    }

    /// Writes the piece and flushes the writer. It succeeds only if both do.
    fn send(&mut self, piece: &[u8]) -> Result<(), Failed>
        ensures whole { OnOk result (Appends (W.contents self.old.writer) (W.contents self.new.writer) piece.now) }
        ensures flushed { OnOk result (self.new.flushes ≡ raised self.old.flushes) }
        ensures front { OnErr result (AppendsFront (W.contents self.old.writer) (W.contents self.new.writer) piece.now) }
        ensures same_faults { self.new.faults ≡ self.old.faults }
    {
        write_whole(&mut self.writer, piece)?;
        self.flush()
    }
}

/// Writes the piece, to its end or to the first write that fails or takes no byte. Repeats a write that was interrupted.
fn write_whole<W: Write>(writer: &mut W, piece: &[u8]) -> Result<(), Failed>
    ensures whole { OnOk result (Appends (W.contents writer.old) (W.contents writer.new) piece.now) }
    ensures front { OnErr result (AppendsFront (W.contents writer.old) (W.contents writer.new) piece.now) }
{
    let mut rest = piece;
    // Nothing says that interruptions end, and the loop must.
    for _ in 0..u64::MAX {
        if rest.is_empty() {
            return Ok(());
        }
        match writer.write(rest) {
            Ok(0) => return Err(Failed),
            Ok(len) => rest = &rest[len..],
            Err(error) if error.kind() == ErrorKind::Interrupted => {}
            Err(_) => return Err(Failed),
        }
    }
    Err(Failed)
}

impl<W: Write + Drop> Sink for HostSink<W> {
    ghost written = { λ _. None };

    ghost faults = { λ sink. sink.faults };

    fn put(&mut self, piece: &[u8]) -> Result<(), Failed>
        ensures means { IsPut piece.now None None self.old.faults self.new.faults result }
        ensures counted { OnErr result (self.new.faults ≡ raised self.old.faults) }
        ensures quiet { OnOk result (self.new.faults ≡ self.old.faults) }
        // If the writer exposes what it holds, the piece was appended.
        ensures written { OnOk result (Appends (W.contents self.old.writer) (W.contents self.new.writer) piece.now) }
        // And the writer was flushed.
        ensures flushed { OnOk result (self.new.flushes ≡ raised self.old.flushes) }
        // After a failure, a front of it was: the whole piece if only the flush failed.
        ensures front { OnErr result (AppendsFront (W.contents self.old.writer) (W.contents self.new.writer) piece.now) }
    {
        let sent = self.send(piece);
        if sent.is_err() {
            self.faults = self.faults.saturating_add(1);
        }
        sent
    }
}
