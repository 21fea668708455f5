//! A least cut of a network, with the flow that shows it.

ghost use Rattle.std.specs.Prelude.{◌≡◌, ℕ, ◌<◌, ◌^◌, List, length, IfOk, IfErr};
ghost use Rattle.std.specs.List.{All};
ghost use Rattle.std.specs.List.Sorted.{IsStrictlyIncreasing};
ghost use Rattle.hs_cut.specs.Answers.{IsEnd};
ghost use Rattle.hs_cut.specs.Distances.{HaveDistances};
ghost use Rattle.hs_cut.specs.Flows.{Fits};
ghost use Rattle.hs_cut.specs.Networks.{among, IsNumbered, IsChosen};
ghost use Rattle.hs_cut.specs.Walks.{IsObstacle};

use crate::augment::full_flow;
use crate::cut::{Cut, CutEnd};
use crate::graph::arcs_by_vertex;
use crate::lists::Flow;
use crate::network::Network;
use crate::obstacle::least_obstacle;
use hs_base::{NoMemory, Numbers};
use std::alloc::Global;

/// A least cut of the network, of the least cuts the one that all others contain, and a flow that fits it. It augments a
/// flow by shortest paths (Edmonds and Karp, Theoretical improvements in algorithmic efficiency for network flow problems,
/// 1972), in time in proportion to the edges times the crossings. The numbers of the network are below its `vertices`, and
/// there are fewer than 2147483648 edges.
///
/// Example: of the vertices 0, 1 and 2 in a row, with slots between them, where 0 must be inside and 2 outside, the cut is
/// 0 alone, with one crossing.
///
/// # Errors
///
/// `NoCut` exactly if edges without a slot join what must be inside to what must be outside, with the least of the
/// shortest such paths; `NoMemory` if memory runs out.
pub fn best_cut(alloc: Global, network: &Network) -> Result<Cut, CutEnd>
    requires numbered { IsNumbered network.now }
    requires countable { length network.now.edges < 2147483648 }
    ensures chosen { IfOk result (λ cut. IsChosen network.now (among cut.inside)) }
    ensures fits { IfOk result (λ cut. Fits network.now (among cut.inside) cut.flow) }
    ensures ascends { IfOk result (λ cut. IsStrictlyIncreasing cut.inside) }
    ensures vertices { IfOk result (λ cut. All (λ vertex. vertex < network.now.vertices) cut.inside) }
    ensures open { IfOk result (λ _. (path : List ℕ) → IsObstacle network.now path → ⊥) }
    ensures end { IfErr result (λ end. IsEnd network.now end) }
{
    let rows = arcs_by_vertex(alloc, network)?;
    if let Some(path) = least_obstacle(alloc, network, rows.as_slice())? {
        return Err(CutEnd::NoCut(Numbers::from_vec(path)));
    }
    let full = full_flow(alloc, network, rows.as_slice())?;
    let inside = with_distance(alloc, full.distances.as_slice())?;
    Ok(Cut {
        inside: Numbers::from_vec(inside),
        flow: Flow::from_vec(full.flow),
    })
}

/// The vertices that have a distance, in order.
fn with_distance(alloc: Global, distances: &[Option<u32>]) -> Result<Vec<u32>, NoMemory>
    requires few { length distances.now < 2 ^ 32 }
    ensures each { IfOk result (λ vertices. HaveDistances distances.now vertices.items) }
    ensures ascends { IfOk result (λ vertices. IsStrictlyIncreasing vertices.items) }
    ensures known { IfOk result (λ vertices. All (λ vertex. vertex < length distances.now) vertices.items) }
{
    let mut vertices = Vec::new(alloc);
    for (vertex, distance) in distances.iter().enumerate() {
        if distance.is_some() {
            vertices.push(vertex as u32)?;
        }
    }
    Ok(vertices)
}
