//! The arcs out of each vertex: an edge is one at each of its two ends.

ghost use Rattle.std.specs.Prelude.{◌≡◌, ℕ, ◌<◌, ◌^◌, List, [], ◌∷◌, ◌++◌, length, cond, IfOk, OnOk, nat_eq};
ghost use Rattle.hs_cut.specs.Arcs.{arcs_from, IsGraph};
ghost use Rattle.hs_cut.specs.Networks.{IsNumbered};

use crate::network::Network;
use hs_base::NoMemory;
use std::alloc::Global;

/// A way over an edge, out of the vertex in whose row it is.
#[derive(Clone, Copy)]
pub(crate) struct Arc {
    /// Where it leads.
    pub to: u32,
    /// The index of the edge.
    pub edge: usize,
    /// Whether it goes from the edge's begin to its end.
    pub along: bool,
}

/// The arcs out of each vertex.
pub(crate) fn arcs_by_vertex(alloc: Global, network: &Network) -> Result<Vec<Vec<Arc>>, NoMemory>
    requires numbered { IsNumbered network.now }
    ensures graph { IfOk result (λ rows. IsGraph network.now.edges rows.items) }
    ensures each { IfOk result (λ rows. length rows.items ≡ network.now.vertices) }
    ensures few { IfOk result (λ rows. length rows.items < 2 ^ 32) }
{
    let mut rows = empty_rows(alloc, network.vertices)?;
    for (index, edge) in network.edges.items().iter().enumerate() {
        let along = Arc {
            to: edge.to,
            edge: index,
            along: true,
        };
        let against = Arc {
            to: edge.from,
            edge: index,
            along: false,
        };
        put_arc(&mut rows, edge.from, along)?;
        put_arc(&mut rows, edge.to, against)?;
    }
    Ok(rows)
}

/// So many rows without an arc.
fn empty_rows(alloc: Global, vertices: u32) -> Result<Vec<Vec<Arc>>, NoMemory>
    ensures empty { IfOk result (λ rows. (vertex : ℕ) → arcs_from rows.items vertex ≡ []) }
    ensures each { IfOk result (λ rows. length rows.items ≡ vertices) }
{
    let mut rows = Vec::new(alloc);
    for _vertex in 0..vertices {
        rows.push(Vec::new(alloc))?;
    }
    Ok(rows)
}

/// Puts an arc at the end of the vertex's row.
fn put_arc(rows: &mut Vec<Vec<Arc>>, vertex: u32, arc: Arc) -> Result<(), NoMemory>
    requires known { vertex < length rows.old.items }
    ensures put { OnOk result ((other : ℕ) → arcs_from rows.new.items other
        ≡ arcs_from rows.old.items other ++ cond (nat_eq other vertex) (arc ∷ []) []) }
    ensures each { OnOk result (length rows.new.items ≡ length rows.old.items) }
{
    rows[vertex as usize].push(arc)?;
    Ok(())
}
