//! Networks for the tests, and checks of what `hs_cut` and `hs_cert` require of them.
ghost use Rattle.std.specs.Prelude.{◌<◌, ◌↔◌, All, IsTrue};
ghost use Rattle.hs_cut.specs.Networks.{IsNumbered};

use hs_base::Numbers;
use hs_cut::{CutEdge, CutEdges, Network};
use std::alloc::{AllocError, Global};

/// An edge: its ends, and whether it is a slot.
pub(crate) type Line = (u32, u32, bool);

/// The network of so many vertices, of these edges and demands.
pub(crate) fn network_of(
    alloc: Global,
    vertices: u32,
    lines: &[Line],
    inside: &[u32],
    outside: &[u32],
) -> Result<Network, AllocError> {
    let mut edges = Vec::new(alloc);
    for line in lines {
        edges.push(CutEdge {
            from: line.0,
            to: line.1,
            slot: line.2,
        })?;
    }
    Ok(Network {
        vertices,
        edges: CutEdges::from_vec(edges),
        inside: Numbers::from_vec(Vec::from_slice(alloc, inside)?),
        outside: Numbers::from_vec(Vec::from_slice(alloc, outside)?),
    })
}

/// Whether both ends of the edge are vertices.
fn joins_vertices(edge: &CutEdge, vertices: u32) -> bool
    ensures { IsTrue result ↔ ((edge.now.from < vertices) × (edge.now.to < vertices)) }
{
    edge.from < vertices && edge.to < vertices
}

/// Whether the numbers are vertices.
pub(crate) fn are_vertices(numbers: &[u32], vertices: u32) -> bool
    ensures { IsTrue result ↔ All (λ number. number < vertices) numbers.now }
{
    numbers.iter().all(|number| *number < vertices)
}

/// Whether the numbers of the network are vertices.
pub(crate) fn is_numbered(network: &Network) -> bool
    ensures { IsTrue result → IsNumbered network.now }
{
    network
        .edges
        .items()
        .iter()
        .all(|edge| joins_vertices(edge, network.vertices))
        && are_vertices(network.inside.items(), network.vertices)
        && are_vertices(network.outside.items(), network.vertices)
}
