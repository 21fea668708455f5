//! What a byte of memory holds, and pointers.

/// A pointer into a relocatable block, as it was when the master pointer was read.
#[derive(Clone, Copy, Debug, PartialEq, Eq)]
pub struct Spot {
    /// The number of the block, from 1.
    pub block: u32,
    /// How often the program had emptied or reallocated the block.
    pub life: u32,
    /// How often the schedule had moved or purged it.
    pub epoch: u32,
    /// In bytes from the front of the block; it may lie outside.
    pub offset: i64,
}

/// A pointer.
#[derive(Clone, Copy, Debug, PartialEq, Eq)]
pub enum Pointer {
    Nil,
    /// Into an object that does not move: its number, and bytes from its front.
    Fixed(u32, i64),
    /// The handle of the block of that number: the address of its master pointer.
    Handle(u32),
    Spot(Spot),
}

/// A byte of memory.
#[derive(Clone, Copy, Debug, PartialEq, Eq)]
pub enum Cell {
    /// Nothing was stored there.
    Undefined,
    Byte(u8),
    /// A state byte of HGetState.
    State(u8),
    /// Part 0 to 3 of a pointer, which was stored through that class.
    Part(u8, Pointer, u32),
}
