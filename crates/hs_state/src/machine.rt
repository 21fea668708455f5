//! The machine between two operations.

ghost use Rattle.std.specs.Prelude.{◌≡◌, length};

use crate::{Binding, Refusals};
use hs_heap::Heap;
use hs_layers::Layers;
use hs_objects::Objects;
use std::alloc::Global;

/// The machine between two operations: its memory, its variables, what is left of the input, and the output.
#[derive(Drop)]
pub struct Machine<'a> {
    /// Where the memory for all of it comes from.
    pub alloc: Global,
    /// The relocatable blocks.
    pub heap: Heap,
    /// How many blocks were made.
    pub blocks: u32,
    /// The objects: those of the program, and then those that were made since.
    pub objects: Objects,
    /// The variables of the program.
    pub globals: Vec<Binding>,
    /// The variables of the calls that have begun and not ended, those of the call that goes on at the top.
    pub locals: Layers<Binding>,
    /// How many calls have begun and not ended.
    pub frames: u32,
    /// What getchar has not read yet.
    pub bytes: &'a [u8],
    /// What plain routines have not answered yet.
    pub words: &'a [u32],
    /// The allocations that are refused.
    pub refused: Refusals<'a>,
    /// How many allocations were asked for.
    pub allocations: u64,
    /// What the program has put out.
    pub output: Vec<u8>,
    pub ghost counted: { blocks ≡ length heap.blocks },
}
