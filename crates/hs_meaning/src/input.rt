//! What a run is given from outside.

ghost use Rattle.std.specs.Prelude.{◌≡◌, List, ℕ};

use hs_base::{Bytes, Numbers};
use std::marker::Model;

/// The low 32 bits of each answer word, as a list. Contracts see the list.
#[derive(Drop)]
pub struct Words {
    vec: Vec<u32>,
}

impl Model for Words {
    ghost Value = { List ℕ };

    ghost view = { λ w. w.vec.items };
}

impl Words {
    /// The list of these items. Takes no memory.
    pub fn from_vec(items: Vec<u32>) -> Words
        ensures { result ≡ items.items }
    {
        Words { vec: items }
    }

    /// Lends the items.
    pub fn items(&self) -> &[u32]
        ensures { result.now ≡ self.now }
    {
        self.vec.as_slice()
    }
}

/// What a run is given from outside. It is the same on every heap.
#[derive(Drop)]
pub struct Input {
    /// What `getchar` reads.
    pub bytes: Bytes,
    /// What plain routines answer.
    pub words: Words,
    /// The numbers, from 1, of the allocations that answer NIL.
    pub refused: Numbers,
}
