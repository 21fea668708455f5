//! Hazards.

use hs_base::Pos;

/// What is used at a hazard.
#[derive(Clone, Copy)]
pub enum HazardKind {
    /// A pointer into a block that may have moved.
    Moved,
    /// A handle of a block that may have been purged.
    Purged,
}

/// An operation that may use a stale pointer, or a handle of a purged block.
#[derive(Clone, Copy)]
pub struct Hazard {
    /// The number of the function.
    pub function: u32,
    /// The number of the operation in its function.
    pub at: u32,
    /// What is used.
    pub kind: HazardKind,
    /// The position of the operation.
    pub pos: Pos,
}
