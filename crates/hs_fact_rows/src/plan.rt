//! How many facts there are.

/// How many names, slots and places the facts of a function have.
#[derive(Clone, Copy)]
pub struct Plan {
    /// At most 64.
    pub names: usize,
    /// The slots that are numbered; all others share one number more.
    pub slots: usize,
    /// The places of the stack: 0 up to here.
    pub places: usize,
}
