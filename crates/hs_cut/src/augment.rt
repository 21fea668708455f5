//! A largest flow: one unit more over a shortest way, while there is such a way.

ghost use Rattle.std.specs.Prelude.{◌≡◌, ℕ, ◌+◌, ◌<◌, ◌^◌, ◌↔◌, length, nat_abs, All, Contains, None, Some, IfOk, IfSome, IfNone, IsTrue};
ghost use Rattle.hs_cut.specs.Arcs.{arcs_from, IsGraph};
ghost use Rattle.hs_cut.specs.Descents.{IsAt};
ghost use Rattle.hs_cut.specs.Distances.{AreInside, IsInside, distance_at};
ghost use Rattle.hs_cut.specs.Networks.{IsCut, IsNumbered, Side};
ghost use Rattle.hs_cut.specs.Pushes.{IsFull, IsPushed, IsSized, LeadsDown, residual, residuals, with_unit};

use crate::distances::{Gate, distances_from};
use crate::graph::Arc;
use crate::network::{CutEdge, Network};
use hs_base::NoMemory;
use std::alloc::Global;

/// A flow that can't grow, and the distances of the vertices to which more may flow.
#[derive(Drop)]
pub(crate) struct FullFlow {
    pub flow: Vec<i64>,
    pub distances: Vec<Option<u32>>,
}

/// A vertex that a search reached.
#[derive(Clone, Copy)]
struct Reached {
    vertex: u32,
    distance: u32,
}

/// A largest flow from what must be inside to what must be outside.
pub(crate) fn full_flow(
    alloc: Global,
    network: &Network,
    rows: &[Vec<Arc>],
) -> Result<FullFlow, NoMemory>
    requires numbered { IsNumbered network.now }
    requires countable { length network.now.edges < 2147483648 }
    requires graph { IsGraph network.now.edges rows.now }
    requires each { length rows.now ≡ network.now.vertices }
    requires few { length rows.now < 2 ^ 32 }
    requires open { (side : Side) × IsCut network.now side }
    ensures { IfOk result (λ full. IsFull network.now rows.now full.flow.items full.distances.items) }
{
    let edges = network.edges.items();
    let mut flow = Vec::from_elem(alloc, 0, edges.len())?;
    'rounds: loop {
        let gates = residual_gates(alloc, edges, flow.as_slice())?;
        let distances = distances_from(alloc, rows, gates.as_slice(), network.inside.items())?;
        let Some(end) = first_reached(network.outside.items(), distances.as_slice()) else {
            return Ok(FullFlow { flow, distances });
        };
        flow = pushed(
            edges,
            rows,
            gates.as_slice(),
            distances.as_slice(),
            end,
            flow,
        );
    }
}

/// The ways over each edge by which more may flow.
fn residual_gates(alloc: Global, edges: &[CutEdge], flow: &[i64]) -> Result<Vec<Gate>, NoMemory>
    requires each { length flow.now ≡ length edges.now }
    ensures { IfOk result (λ gates. gates.items ≡ residuals edges.now flow.now) }
{
    let gates = edges
        .iter()
        .zip(flow)
        .map(|(edge, amount)| residual_gate(*edge, *amount))
        .collect(alloc)?;
    Ok(gates)
}

/// The ways over the edge by which more may flow than this amount.
fn residual_gate(edge: CutEdge, amount: i64) -> Gate
    ensures { result ≡ residual edge amount }
{
    Gate {
        along: !edge.slot || amount < 1,
        against: !edge.slot || -1 < amount,
    }
}

/// The first of the vertices that the search reached.
fn first_reached(vertices: &[u32], distances: &[Option<u32>]) -> Option<Reached>
    requires known { All (λ vertex. vertex < length distances.now) vertices.now }
    ensures some { IfSome result (λ end. IsAt distances.now end.distance vertices.now end.vertex) }
    ensures none { IfNone result (All (λ vertex. distance_at distances.now vertex ≡ None) vertices.now) }
{
    for vertex in vertices {
        if let Some(distance) = distances[*vertex as usize] {
            return Some(Reached {
                vertex: *vertex,
                distance,
            });
        }
    }
    None
}

/// The flow with one unit more, from a vertex of distance 0 to the end.
fn pushed(
    edges: &[CutEdge],
    rows: &[Vec<Arc>],
    gates: &[Gate],
    distances: &[Option<u32>],
    end: Reached,
    flow: Vec<i64>,
) -> Vec<i64>
    requires each { length flow.items ≡ length edges.now }
    requires size { IsSized edges.now flow.items }
    requires gates { gates.now ≡ residuals edges.now flow.items }
    requires graph { IsGraph edges.now rows.now }
    requires inside { AreInside (length edges.now) rows.now }
    requires long { length distances.now ≡ length rows.now }
    requires below { (vertex distance : ℕ) → distance_at distances.now vertex ≡ Some (distance + 1)
        → (arc : Arc) × Contains (arcs_from rows.now vertex) arc × LeadsDown gates.now distances.now distance arc }
    requires end { distance_at distances.now end.vertex ≡ Some end.distance }
    ensures { (start : ℕ) × (distance_at distances.now start ≡ Some 0) × IsPushed edges.now start end.vertex flow.items result.items }
{
    let mut flow = flow;
    let mut vertex = end.vertex;
    let mut distance = end.distance;
    'steps: while distance > 0 {
        distance -= 1;
        let row = rows[vertex as usize].as_slice();
        let Some(arc) = arc_down(row, gates, distances, distance) else {
            unreachable!()
        };
        flow[arc.edge] = with_unit(flow[arc.edge], !arc.along);
        vertex = arc.to;
    }
    flow
}

/// The amount with one unit more that way.
fn with_unit(amount: i64, along: bool) -> i64
    requires small { nat_abs amount < 2147483648 }
    ensures { result ≡ with_unit amount along }
{
    if along { amount + 1 } else { amount - 1 }
}

/// An arc to a vertex of the distance, over an edge by which more may flow from there.
fn arc_down(row: &[Arc], gates: &[Gate], distances: &[Option<u32>], distance: u32) -> Option<Arc>
    requires inside { All (IsInside (length distances.now) (length gates.now)) row.now }
    ensures some { IfSome result (λ arc. Contains row.now arc × LeadsDown gates.now distances.now distance arc) }
    ensures none { IfNone result (All (λ arc. LeadsDown gates.now distances.now distance arc → ⊥) row.now) }
{
    for arc in row {
        if leads_down(gates, distances, distance, *arc) {
            return Some(*arc);
        }
    }
    None
}

/// Whether the arc leads to a vertex of the distance, and more may flow over it from there.
fn leads_down(gates: &[Gate], distances: &[Option<u32>], distance: u32, arc: Arc) -> bool
    requires inside { IsInside (length distances.now) (length gates.now) arc }
    ensures { IsTrue result ↔ LeadsDown gates.now distances.now distance arc }
{
    distances[arc.to as usize] == Some(distance) && gates[arc.edge].opens(!arc.along)
}
