//! The heap of relocatable blocks. `specs/Blocks.antt` has what each role does to a block, `specs/Memory.antt` what a call does to the heap, and
//! `specs/Shift.antt` what a schedule does to it.
#![tactic(auto)]

mod cell;
mod decision;
mod heap;
mod pass;
mod presence;
mod row;
mod stop;

pub use cell::{Cell, Pointer, Spot};
pub use decision::{Decision, Which};
pub use heap::Heap;
pub use stop::{HeapEnd, HeapStop};
