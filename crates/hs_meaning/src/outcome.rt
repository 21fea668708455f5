//! How a run ends, and why it stops.

use hs_base::Pos;

/// Why the reference machine stops a run.
#[derive(Clone, Copy, Debug, PartialEq, Eq)]
pub enum Stop {
    /// An access through NIL.
    Nil,
    /// A use of a block that the program disposed.
    Disposed,
    /// A use of a handle whose block the schedule purged.
    Purged,
    /// A use of a pointer into a block that the program emptied since.
    Old,
    /// A use of a pointer into a block that the schedule moved since.
    Stale,
    /// An access outside the object or the block.
    Range,
    /// An access to an object that has ended.
    Gone,
    /// A use of an undefined value or cell.
    Undefined,
    /// A load or store that the cells or the pointer do not permit.
    BadLoad,
    /// A use of a pointer that has no meaning.
    BadPointer,
    /// A pointer that is no handle, given to a routine that asks for one.
    BadHandle,
    /// A state byte used as a number, or a number as a state byte.
    BadByte,
    /// A division by 0.
    Divide,
    /// More frames or local bytes than the machine has.
    Frames,
}

/// How a run ends.
#[derive(Clone, Copy, Debug, PartialEq, Eq)]
pub enum Outcome {
    /// `main` returned this value.
    Finished(i32),
    /// The machine stopped the run at this place.
    Stopped(Stop, Pos),
    /// The run needed one turn more than it had.
    TurnsSpent,
}
