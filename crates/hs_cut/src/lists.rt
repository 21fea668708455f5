//! A list of edges, and a flow: a number for each edge.

ghost use Rattle.std.specs.Prelude.{◌≡◌, List, ℤ};

use crate::network::CutEdge;
use std::marker::Model;

/// A list of edges. Contracts see the edges alone: capacity and allocator count for nothing.
#[derive(Drop)]
pub struct CutEdges {
    vec: Vec<CutEdge>,
}

impl Model for CutEdges {
    ghost use Rattle.std.specs.Prelude.{List};
    ghost use Rattle.hs_cut.specs.declared.network.CutEdge.{CutEdge};

    ghost Value = { List CutEdge };

    ghost view = { λ it. it.vec.items };
}

impl CutEdges {
    /// The list of these items. Takes no memory.
    pub fn from_vec(items: Vec<CutEdge>) -> CutEdges
        ensures { result ≡ items.items }
    {
        CutEdges { vec: items }
    }

    /// Lends the items.
    pub fn items(&self) -> &[CutEdge]
        ensures { result.now ≡ self.now }
    {
        self.vec.as_slice()
    }
}

/// What flows over each edge, in the order of the edges: along it if the number is positive, against it if it is
/// negative.
#[derive(Drop)]
pub struct Flow {
    vec: Vec<i64>,
}

impl Model for Flow {
    ghost Value = { List ℤ };

    ghost view = { λ it. it.vec.items };
}

impl Flow {
    /// The list of these items. Takes no memory.
    pub fn from_vec(items: Vec<i64>) -> Flow
        ensures { result ≡ items.items }
    {
        Flow { vec: items }
    }

    /// Lends the items.
    pub fn items(&self) -> &[i64]
        ensures { result.now ≡ self.now }
    {
        self.vec.as_slice()
    }
}
