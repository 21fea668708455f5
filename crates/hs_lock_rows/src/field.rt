//! The fields of a row.

/// A field of the row of an operation: a bit for each name. Names, slots and places are counted as in the plan of `hs_fact_rows`.
#[derive(Clone, Copy)]
pub enum Field {
    /// The names that are locked.
    Locked,
    /// The names that are live.
    Live,
    /// The names that are apart from a name. Its own bit says nothing.
    Apart(usize),
    /// The names that stay locked when the byte in a slot is put back.
    KeptIn(usize),
    /// The names that stay locked when the byte at a place of the stack is put back.
    KeptAt(usize),
    /// All names, if the value at a place of the stack is new.
    NewAt(usize),
}
