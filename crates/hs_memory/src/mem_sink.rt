//! A sink in memory.

ghost use Rattle.std.specs.Prelude.{◌≡◌, ◌+◌, ◌≤◌, ◌++◌, [], Option, Some, IfOk, take, length, is_ok, vec_len, vec_capacity, if◌then◌else◌};
ghost use Rattle.hs_base.specs.Sink.{IsPut};
ghost use Rattle.hs_base.specs.Count.{raised};
ghost use Rattle.hs_memory.specs.Memory.{put_len, put_succeeds};

use crate::mem_files::is_listed;
use hs_base::{Failed, NoMemory, Sink};
use std::alloc::Global;
use std::marker::Model;

/// A sink that is kept in memory, with a room, and fails when it is set to: for tests, and for callers that want the
/// text. It tells its bytes.
#[derive(Drop)]
pub struct MemSink {
    bytes: Vec<u8>,
    room: usize,
    failing: Vec<u64>,
    puts: u64,
    faults: u64,
}

impl Model for MemSink {
    ghost use Rattle.std.specs.Prelude.{◌≤◌, vec_len, vec_capacity};
    ghost use Rattle.hs_memory.specs.Memory.{MemorySink};

    ghost Value = { MemorySink };

    ghost view = { λ s. record { written = s.bytes.items; room = s.room; failing = s.failing.items; puts = s.puts; faults = s.faults } };

    ghost invariant = { λ s. (vec_len s.bytes ≤ s.room) × (s.room ≤ vec_capacity s.bytes) };
}

impl MemSink {
    /// An empty sink for `room` bytes, of which it takes the memory at once. A put whose number, from 1, is in `failing`
    /// writes the first half of its piece, rounded down, and fails. A put that does not fit writes what fits and fails.
    ///
    /// Example: with a room of 4, a put of `accepted` writes `acce` and fails.
    pub fn new(alloc: Global, room: usize, failing: Vec<u64>) -> Result<MemSink, NoMemory>
        ensures written { IfOk result (λ sink. sink.written ≡ []) }
        ensures room { IfOk result (λ sink. sink.room ≡ room) }
        ensures failing { IfOk result (λ sink. sink.failing ≡ failing.items) }
        ensures puts { IfOk result (λ sink. sink.puts ≡ 0) }
        ensures faults { IfOk result (λ sink. sink.faults ≡ 0) }
    {
        let bytes = Vec::with_capacity(alloc, room)?;
        Ok(MemSink {
            bytes,
            room,
            failing,
            puts: 0,
            faults: 0,
        })
    }

    /// Lends the bytes so far.
    pub fn written(&self) -> &[u8]
        ensures { result.now ≡ self.now.written }
    {
        self.bytes.as_slice()
    }
}

impl Sink for MemSink {
    ghost written = { λ sink. Some sink.written };

    ghost faults = { λ sink. sink.faults };

    fn put(&mut self, piece: &[u8]) -> Result<(), Failed>
        ensures means { IsPut piece.now (Some self.old.written) (Some self.new.written) self.old.faults self.new.faults result }
        // Which answer it is, and what was written.
        ensures exact { is_ok result ≡ put_succeeds self.old piece.now }
        ensures grown { self.new.written ≡ self.old.written ++ take (put_len self.old piece.now) piece.now }
        ensures room_stays { self.new.room ≡ self.old.room }
        ensures failing_stays { self.new.failing ≡ self.old.failing }
        ensures puts { self.new.puts ≡ raised self.old.puts }
        ensures counted { self.new.faults ≡ (if is_ok result then self.old.faults else raised self.old.faults) }
    {
        self.puts = self.puts.saturating_add(1);
        let fails = is_listed(&self.failing, self.puts);
        let wanted = if fails { piece.len() / 2 } else { piece.len() };
        let left = self.room - self.bytes.len();
        let len = wanted.min(left);
        append(&mut self.bytes, &piece[..len]);
        if fails || len < piece.len() {
            self.faults = self.faults.saturating_add(1);
            return Err(Failed);
        }
        Ok(())
    }
}

/// Appends what fits.
fn append(bytes: &mut Vec<u8>, piece: &[u8])
    requires { vec_len bytes.old + length piece.now ≤ vec_capacity bytes.old }
    ensures items { bytes.new.items ≡ bytes.old.items ++ piece.now }
    ensures capacity { vec_capacity bytes.old ≤ vec_capacity bytes.new }
{
    match bytes.extend_from_slice(piece) {
        Ok(()) => {}
        Err(_) => unreachable!(),
    }
}
