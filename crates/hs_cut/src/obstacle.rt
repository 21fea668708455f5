//! The least of the shortest paths that prevent a cut.

ghost use Rattle.std.specs.Prelude.{◌≡◌, ℕ, ◌+◌, ◌<◌, ◌^◌, ◌↔◌, List, ◌∷◌, length, map, All, Some, IfOk, IfSome, IfNone, IsTrue};
ghost use Rattle.hs_cut.specs.Arcs.{IsGraph};
ghost use Rattle.hs_cut.specs.Descents.{Descends, IsAt, IsLeastAt, IsLeastDistance, LeadsTo, lesser, uncut_gate};
ghost use Rattle.hs_cut.specs.Distances.{AreInside, IsInside, distance_at, next_to, targets};
ghost use Rattle.hs_cut.specs.Networks.{IsCut, IsNumbered, Side};
ghost use Rattle.hs_cut.specs.Walks.{IsLeastObstacle};

use crate::distances::{Gate, distances_from, is_open};
use crate::graph::Arc;
use crate::network::{CutEdge, Network};
use hs_base::NoMemory;
use std::alloc::Global;

/// The least of the shortest paths from what must be inside to what must be outside, over edges that may not be
/// crossed. There is no such path exactly if there is a cut.
pub(crate) fn least_obstacle(
    alloc: Global,
    network: &Network,
    rows: &[Vec<Arc>],
) -> Result<Option<Vec<u32>>, NoMemory>
    requires numbered { IsNumbered network.now }
    requires graph { IsGraph network.now.edges rows.now }
    requires each { length rows.now ≡ network.now.vertices }
    requires few { length rows.now < 2 ^ 32 }
    ensures found { IfOk result (λ found. IfSome found (λ path. IsLeastObstacle network.now path.items)) }
    ensures open { IfOk result (λ found. IfNone found ((side : Side) × IsCut network.now side)) }
{
    let gates = uncut_gates(alloc, network.edges.items())?;
    let distances = distances_from(alloc, rows, gates.as_slice(), network.outside.items())?;
    let inside = network.inside.items();
    let Some(distance) = least_distance(inside, distances.as_slice()) else {
        return Ok(None);
    };
    let Some(first) = least_at(inside, distances.as_slice(), distance) else {
        unreachable!()
    };
    let path = descent(
        alloc,
        rows,
        gates.as_slice(),
        distances.as_slice(),
        first,
        distance,
    )?;
    Ok(Some(path))
}

/// The gates of the edges: open, both ways, if the edge may not be crossed.
fn uncut_gates(alloc: Global, edges: &[CutEdge]) -> Result<Vec<Gate>, NoMemory>
    ensures { IfOk result (λ gates. gates.items ≡ map uncut_gate edges.now) }
{
    let gates = edges
        .iter()
        .map(|edge| Gate {
            along: !edge.slot,
            against: !edge.slot,
        })
        .collect(alloc)?;
    Ok(gates)
}

/// The least distance that one of the vertices has.
fn least_distance(vertices: &[u32], distances: &[Option<u32>]) -> Option<u32>
    requires known { All (λ vertex. vertex < length distances.now) vertices.now }
    ensures { IsLeastDistance distances.now vertices.now result }
{
    let mut least = None;
    for vertex in vertices {
        if let Some(distance) = distances[*vertex as usize] {
            least = Some(lesser(least, distance));
        }
    }
    least
}

/// The least of the vertices that has the distance.
fn least_at(vertices: &[u32], distances: &[Option<u32>], distance: u32) -> Option<u32>
    requires known { All (λ vertex. vertex < length distances.now) vertices.now }
    ensures { IsLeastAt distances.now distance vertices.now result }
{
    let mut least = None;
    for vertex in vertices {
        if distances[*vertex as usize] == Some(distance) {
            least = Some(lesser(least, *vertex));
        }
    }
    least
}

/// The way down from the vertex to distance 0, each time to the least vertex of the distance below.
fn descent(
    alloc: Global,
    rows: &[Vec<Arc>],
    gates: &[Gate],
    distances: &[Option<u32>],
    first: u32,
    first_distance: u32,
) -> Result<Vec<u32>, NoMemory>
    requires inside { AreInside (length gates.now) rows.now }
    requires long { length distances.now ≡ length rows.now }
    requires below { (vertex distance : ℕ) → distance_at distances.now vertex ≡ Some (distance + 1)
        → (next : ℕ) × IsAt distances.now distance (next_to gates.now rows.now vertex) next }
    requires first { distance_at distances.now first ≡ Some first_distance }
    ensures begins { IfOk result (λ path. (rest : List ℕ) × (path.items ≡ first ∷ rest)) }
    ensures descends { IfOk result (λ path. Descends gates.now rows.now distances.now first_distance path.items) }
{
    let mut path = Vec::new(alloc);
    path.push(first)?;
    let mut vertex = first;
    let mut distance = first_distance;
    'steps: while distance > 0 {
        distance -= 1;
        let row = rows[vertex as usize].as_slice();
        let Some(next) = least_step(row, gates, distances, distance) else {
            unreachable!()
        };
        path.push(next)?;
        vertex = next;
    }
    Ok(path)
}

/// The least vertex of the distance that an open arc of the row leads to.
fn least_step(row: &[Arc], gates: &[Gate], distances: &[Option<u32>], distance: u32) -> Option<u32>
    requires inside { All (IsInside (length distances.now) (length gates.now)) row.now }
    ensures { IsLeastAt distances.now distance (targets gates.now row.now) result }
{
    let mut least = None;
    for arc in row {
        if leads_to(gates, distances, distance, *arc) {
            least = Some(lesser(least, arc.to));
        }
    }
    least
}

/// Whether the arc is open, and leads to a vertex of the distance.
fn leads_to(gates: &[Gate], distances: &[Option<u32>], distance: u32, arc: Arc) -> bool
    requires inside { IsInside (length distances.now) (length gates.now) arc }
    ensures { IsTrue result ↔ LeadsTo gates.now distances.now distance arc }
{
    distances[arc.to as usize] == Some(distance) && is_open(gates, arc)
}

/// The lesser of the number and the least so far.
fn lesser(least: Option<u32>, number: u32) -> u32
    ensures { result ≡ lesser least number }
{
    match least {
        Some(before) => before.min(number),
        None => number,
    }
}
