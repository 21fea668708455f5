//! Lists that contracts see without capacity and allocator.

ghost use Rattle.std.specs.Prelude.{◌≡◌, List, ℕ};

use std::marker::Model;

/// A list of bytes. Contracts see the bytes alone: capacity and allocator count for nothing.
#[derive(Debug, Drop)]
pub struct Bytes {
    vec: Vec<u8>,
}

impl Model for Bytes {
    ghost Value = { List ℕ };

    ghost view = { λ b. b.vec.items };
}

impl Bytes {
    /// The list of these items. Takes no memory.
    pub fn from_vec(items: Vec<u8>) -> Bytes
        ensures { result ≡ items.items }
    {
        Bytes { vec: items }
    }

    /// Lends the items.
    pub fn items(&self) -> &[u8]
        ensures { result.now ≡ self.now }
    {
        self.vec.as_slice()
    }
}

/// A list of numbers below 2^32. Contracts see the numbers alone.
#[derive(Drop)]
pub struct Numbers {
    vec: Vec<u32>,
}

impl Model for Numbers {
    ghost Value = { List ℕ };

    ghost view = { λ n. n.vec.items };
}

impl Numbers {
    /// The list of these items. Takes no memory.
    pub fn from_vec(items: Vec<u32>) -> Numbers
        ensures { result ≡ items.items }
    {
        Numbers { vec: items }
    }

    /// Lends the items.
    pub fn items(&self) -> &[u32]
        ensures { result.now ≡ self.now }
    {
        self.vec.as_slice()
    }
}
