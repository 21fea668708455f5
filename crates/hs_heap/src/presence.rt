//! Whether a block has its cells.

/// Whether a relocatable block has its cells.
#[derive(Clone, Copy)]
pub(crate) enum Presence {
    Present,
    /// The program emptied it.
    Emptied,
    /// The schedule purged it. Its cells still count as live bytes, and no call reaches them.
    Purged,
    /// The program disposed it.
    Disposed,
}
