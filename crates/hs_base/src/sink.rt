//! The trait of sinks: what a write means.

ghost use Rattle.std.specs.Prelude.{Option, List, ℕ};
ghost use Rattle.hs_base.specs.Sink.{IsPut};

use crate::Failed;

/// Where bytes are written. What a put means is `IsPut` of `specs/Sink.antt`, over two things that code does not see:
/// the bytes so far, if they are known, and the count of faults, which never falls.
pub trait Sink {
    /// The bytes so far, if the object tells them.
    ghost written: { Self → Option (List ℕ) };

    /// How many puts failed.
    ghost faults: { Self → ℕ };

    /// Writes the piece. A put that fails may have written a front of it.
    fn put(&mut self, piece: &[u8]) -> Result<(), Failed>
        ensures { IsPut piece.now (written self.old) (written self.new) (faults self.old) (faults self.new) result };
}
