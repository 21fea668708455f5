//! What an operation does to the facts, in numbers.

/// What an operation does. `depth` is how many values are on the stack before it.
#[derive(Clone, Copy)]
pub enum Step {
    /// Takes all values from a place on, and leaves values of which nothing is known.
    Pop {
        base: usize,
    },
    /// Puts the value of a slot on top, at that place. `name` is its number as a name, or past the names.
    Get {
        to: usize,
        slot: usize,
        name: usize,
    },
    /// Gives the top to a name, which is also a slot of that number. A name that is not numbered has any number past the names.
    SetName {
        depth: usize,
        name: usize,
        slot: usize,
    },
    /// Gives the top to a slot that is no name.
    SetSlot {
        depth: usize,
        slot: usize,
    },
    Dup {
        depth: usize,
    },
    Tuck {
        depth: usize,
    },
    /// Converts the top.
    Conv {
        depth: usize,
    },
    /// Moves the value of a place to the top.
    Bring {
        depth: usize,
        base: usize,
    },
    /// Reads the state of the handle at that place, and leaves it there.
    ReadState {
        depth: usize,
        base: usize,
    },
    /// Calls the function of that number, whose arguments begin at that place.
    Call {
        base: usize,
        function: u32,
    },
}
