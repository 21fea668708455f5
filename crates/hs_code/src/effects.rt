//! What a function may do to the heap.

ghost use Rattle.std.specs.Prelude.{⊤, [], ◌∷◌, codes};

use bitflags::{Flag, Flags, bitflag_items};

/// What a function may do to the heap, itself or in the functions that it calls (own):
///
/// - `MOVES`: call a routine that may move memory;
/// - `PURGES`: call a routine that may purge blocks;
/// - `UNLOCKS`: unlock a block, give it another size, or set the state of its handle to another one than it was;
/// - `MARKS`: mark a block as purgeable, or set the state of its handle to another one than it was;
/// - `BITS`: read or change the state of a handle;
/// - `DISPOSES`: dispose of a block that a handle is of.
#[derive(Clone, Copy)]
pub struct Effects(u8);

bitflag_items! {
    impl Effects: u8 {
        const MOVES = 1;
        const PURGES = 2;
        const UNLOCKS = 4;
        const MARKS = 8;
        const BITS = 16;
        const DISPOSES = 32;
    }
}

impl Flags for Effects {
    type Bits = u8;

    ghost exact = { ⊤ };

    ghost table = { (codes "MOVES", 1) ∷ (codes "PURGES", 2) ∷ (codes "UNLOCKS", 4) ∷ (codes "MARKS", 8) ∷ (codes "BITS", 16) ∷ (codes "DISPOSES", 32) ∷ [] };

    ghost set_of = { λ it. it.0 };

    fn flags<'a>() -> &'a [Flag<Effects>] {
        Effects::FLAGS
    }

    fn bits(&self) -> u8 {
        self.0
    }

    fn from_bits_retain(bits: u8) -> Effects {
        Effects(bits)
    }
}
