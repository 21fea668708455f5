//! A buffer of facts.

ghost use Rattle.std.specs.Prelude.{◌≡◌, ◌<◌, ◌≤◌, ◌++◌, ◌∷◌, [], IfOk, vec_len, vec_capacity};
ghost use Rattle.hs_flow.specs.Buffers.{HasRoom};
ghost use Rattle.hs_flow.specs.Next.{at_slot};

use crate::{Fact, FactStatus, Slot};
use hs_base::NoMemory;
use std::alloc::Global;
use std::marker::Model;

/// A buffer of facts with a room. Its caller lends it to each step, so that a step takes no memory. Contracts see the list of its facts and the room.
#[derive(Drop)]
pub struct Facts {
    vec: Vec<Fact>,
    room: usize,
}

impl Model for Facts {
    ghost use Rattle.std.specs.Prelude.{◌≤◌, vec_len, vec_capacity};
    ghost use Rattle.hs_flow.specs.Buffers.{Buffer};

    ghost Value = { Buffer };

    ghost view = { λ it. record { facts = it.vec.items; room = it.room } };

    ghost invariant = { λ it. (vec_len it.vec ≤ it.room) × (it.room ≤ vec_capacity it.vec) };
}

impl Facts {
    /// An empty buffer for so many facts.
    ///
    /// # Errors
    ///
    /// `NoMemory` if memory runs out.
    pub fn new(alloc: Global, room: usize) -> Result<Facts, NoMemory>
        ensures empty { IfOk result (λ it. it.facts ≡ []) }
        ensures room { IfOk result (λ it. it.room ≡ room) }
    {
        let vec = Vec::with_capacity(alloc, room)?;
        Ok(Facts { vec, room })
    }

    /// Empties the buffer, and keeps its room.
    pub fn clear(&mut self)
        ensures empty { self.new.facts ≡ [] }
        ensures room { self.new.room ≡ self.old.room }
    {
        self.vec.clear();
    }

    /// Lends the facts, in the order in which they were put.
    pub fn all(&self) -> &[Fact]
        ensures { result.now ≡ self.now.facts }
    {
        self.vec.as_slice()
    }

    /// Puts a fact at the end.
    pub(crate) fn put(&mut self, status: FactStatus, slot: Slot)
        requires room { HasRoom 1 self.old }
        ensures facts { self.new.facts ≡ self.old.facts ++ at_slot status slot ∷ [] }
        ensures room { self.new.room ≡ self.old.room }
    {
        push(&mut self.vec, Fact { slot, status });
    }
}

/// Puts a fact where there is room for it.
fn push(facts: &mut Vec<Fact>, fact: Fact)
    requires room { vec_len facts.old < vec_capacity facts.old }
    ensures items { facts.new.items ≡ facts.old.items ++ fact ∷ [] }
    ensures capacity { vec_capacity facts.old ≤ vec_capacity facts.new }
{
    match facts.push(fact) {
        Ok(()) => {}
        Err(_) => unreachable!(),
    }
}
