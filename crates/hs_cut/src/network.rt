//! Networks: vertices, edges, and the vertices whose sides are given.

use crate::lists::CutEdges;
use hs_base::Numbers;

/// An edge between two vertices. A cut may cross it if it is a slot.
#[derive(Clone, Copy)]
pub struct CutEdge {
    /// The vertex where it begins.
    pub from: u32,
    /// The vertex where it ends.
    pub to: u32,
    /// Whether it may be crossed.
    pub slot: bool,
}

/// What is to be cut: vertices, edges between them, and the vertices whose sides are given.
#[derive(Drop)]
pub struct Network {
    /// How many vertices there are: they are the numbers below this one.
    pub vertices: u32,
    /// The edges. There may be several between two vertices, and edges from a vertex to itself.
    pub edges: CutEdges,
    /// The vertices that must be inside.
    pub inside: Numbers,
    /// The vertices that must be outside.
    pub outside: Numbers,
}
