//! Places in source texts.

/// A place in a source text.
#[derive(Clone, Copy, Debug, PartialEq, Eq, PartialOrd, Ord)]
pub struct Pos {
    /// The number of the file: its place, from 0, in the order of first reads.
    pub file: u16,
    /// The physical line, from 1.
    pub line: u32,
    /// The byte column, from 1.
    pub col: u32,
}
