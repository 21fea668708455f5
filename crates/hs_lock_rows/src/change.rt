//! What an operation does to locks, in numbers.

/// What an operation does. `depth` is how many values are on the stack before it, and `base` the place of the first value that it takes.
#[derive(Clone, Copy)]
pub enum Change {
    /// Takes all values from a place on, and leaves values of which nothing is known.
    Pop {
        base: usize,
    },
    /// Puts the value of a slot on top, at that place.
    Get {
        to: usize,
        slot: usize,
    },
    /// Gives the top to a name, which is also a slot of that number.
    SetName {
        depth: usize,
        name: usize,
        slot: usize,
    },
    /// Gives the top to a slot that is no name.
    SetSlot {
        depth: usize,
        slot: usize,
    },
    Dup {
        depth: usize,
    },
    Tuck {
        depth: usize,
    },
    /// Converts the top.
    Conv {
        depth: usize,
    },
    /// Moves the value of a place to the top.
    Bring {
        depth: usize,
        base: usize,
    },
    /// Uses the handle at the base, which is live afterwards.
    Use {
        depth: usize,
        base: usize,
    },
    /// Locks the block of the handle at the base.
    Lock {
        depth: usize,
        base: usize,
    },
    /// Unlocks the block of the handle at the base, or makes another block for it.
    Unlock {
        depth: usize,
        base: usize,
    },
    /// Puts a state byte on the handle at the base. The byte is right above it.
    SetState {
        depth: usize,
        base: usize,
    },
    /// Disposes of the handle at the base.
    Dispose {
        depth: usize,
        base: usize,
    },
    /// Reads the state of the handle at the base, and leaves it there.
    ReadState {
        depth: usize,
        base: usize,
    },
    /// Leaves a new handle at the base.
    Make {
        base: usize,
    },
    /// Calls the function of that number, which may unlock blocks, or dispose of them.
    Call {
        base: usize,
        function: u32,
        unlocks: bool,
        disposes: bool,
    },
}
