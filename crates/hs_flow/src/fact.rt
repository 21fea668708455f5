//! Facts about slots.

use hs_tree::Variable;

/// What a fact is about.
#[derive(Clone, Copy)]
pub enum Slot {
    /// Nothing: the fact is about control alone.
    Nothing,
    /// The result of a function that has returned.
    Answer,
    /// The value of a variable that is a slot.
    Variable(Variable),
    /// The value of that place of the stack, counted from 0 at the bottom of the call's own part.
    Place(u32),
    /// The pointers in memory of the class of that number.
    Class(u32),
}

/// What a fact says of its slot. A pointer here is one that was loaded from a handle, or that was made from one.
#[derive(Clone, Copy)]
pub enum FactStatus {
    /// Control is here.
    Reached,
    /// A handle may be there.
    IsHandle,
    /// A handle of a block that is marked as purgeable may be there.
    Purgeable,
    /// A handle of a block that was purged may be there.
    Hollow,
    /// The state byte of a purgeable block may be there.
    SavedPurgeable,
    /// A pointer that was loaded from the handle in a name may be there, and no block has moved since. The name is given by its place in the list of
    /// handle names of the function.
    Fresh(u32),
    /// A pointer of a caller may be there, whose handle was locked when the function was called.
    Held,
    /// A pointer of a caller may be there, whose handle was not known to be locked.
    Outer,
    /// A pointer may be there whose handle has no name any more.
    Loose,
    /// A pointer into a block that may have moved may be there.
    Stale,
}

/// A fact: what may be in a slot.
#[derive(Clone, Copy)]
pub struct Fact {
    pub slot: Slot,
    pub status: FactStatus,
}
