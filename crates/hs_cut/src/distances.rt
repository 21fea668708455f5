//! A search by breadth: how many steps away each vertex is.

ghost use Rattle.std.specs.Prelude.{◌≡◌, ℕ, ◌<◌, ◌^◌, List, [], ◌∷◌, length, flat_map, All, IfOk, OnOk};
ghost use Rattle.hs_cut.specs.Distances.{AreInside, AreDistances, IsInside, IsReached, is_open, next_to, opens, targets};

use crate::graph::Arc;
use hs_base::NoMemory;
use std::alloc::Global;

/// Which ways an edge can be traversed.
#[derive(Clone, Copy)]
pub(crate) struct Gate {
    /// From its begin to its end.
    pub along: bool,
    /// From its end to its begin.
    pub against: bool,
}

impl Gate {
    /// Whether it can be traversed that way.
    pub(crate) fn opens(self, along: bool) -> bool
        ensures { result ≡ opens self along }
    {
        if along { self.along } else { self.against }
    }
}

/// Whether the arc can be traversed.
pub(crate) fn is_open(gates: &[Gate], arc: Arc) -> bool
    requires known { arc.edge < length gates.now }
    ensures { result ≡ is_open gates.now arc }
{
    gates[arc.edge].opens(arc.along)
}

/// The distances of all vertices in a search by breadth from the starts, over the arcs that can be traversed.
pub(crate) fn distances_from(
    alloc: Global,
    rows: &[Vec<Arc>],
    gates: &[Gate],
    starts: &[u32],
) -> Result<Vec<Option<u32>>, NoMemory>
    requires inside { AreInside (length gates.now) rows.now }
    requires known { All (λ start. start < length rows.now) starts.now }
    requires few { length rows.now < 2 ^ 32 }
    ensures { IfOk result (λ distances. AreDistances gates.now rows.now starts.now distances.items) }
{
    let mut distances = Vec::from_elem(alloc, None, rows.len())?;
    let mut frontier = Vec::new(alloc);
    reach_starts(starts, distances.as_mut_slice(), &mut frontier)?;
    let mut distance = 0;
    'rounds: while !frontier.is_empty() {
        distance += 1;
        let mut next = Vec::new(alloc);
        reach_next(
            rows,
            gates,
            frontier.as_slice(),
            distance,
            distances.as_mut_slice(),
            &mut next,
        )?;
        frontier = next;
    }
    Ok(distances)
}

/// Reaches the starts.
fn reach_starts(
    starts: &[u32],
    distances: &mut [Option<u32>],
    next: &mut Vec<u32>,
) -> Result<(), NoMemory>
    requires known { All (λ start. start < length distances.old) starts.now }
    ensures { OnOk result (IsReached 0 starts.now distances.old next.old.items distances.new next.new.items) }
{
    for start in starts {
        reach(*start, 0, distances, next)?;
    }
    Ok(())
}

/// Reaches what is a step from one of the frontier.
fn reach_next(
    rows: &[Vec<Arc>],
    gates: &[Gate],
    frontier: &[u32],
    distance: u32,
    distances: &mut [Option<u32>],
    next: &mut Vec<u32>,
) -> Result<(), NoMemory>
    requires inside { AreInside (length gates.now) rows.now }
    requires long { length distances.old ≡ length rows.now }
    requires known { All (λ vertex. vertex < length rows.now) frontier.now }
    ensures { OnOk result (IsReached distance (flat_map (next_to gates.now rows.now) frontier.now)
        distances.old next.old.items distances.new next.new.items) }
{
    for vertex in frontier {
        reach_row(&rows[*vertex as usize], gates, distance, distances, next)?;
    }
    Ok(())
}

/// Reaches where the open arcs of the row lead.
fn reach_row(
    row: &[Arc],
    gates: &[Gate],
    distance: u32,
    distances: &mut [Option<u32>],
    next: &mut Vec<u32>,
) -> Result<(), NoMemory>
    requires inside { All (IsInside (length distances.old) (length gates.now)) row.now }
    ensures { OnOk result (IsReached distance (targets gates.now row.now)
        distances.old next.old.items distances.new next.new.items) }
{
    for arc in row {
        if is_open(gates, *arc) {
            reach(arc.to, distance, distances, next)?;
        }
    }
    Ok(())
}

/// Gives the vertex this distance and puts it to the next ones, if it has no distance.
fn reach(
    vertex: u32,
    distance: u32,
    distances: &mut [Option<u32>],
    next: &mut Vec<u32>,
) -> Result<(), NoMemory>
    requires known { vertex < length distances.old }
    ensures { OnOk result (IsReached distance (vertex ∷ [])
        distances.old next.old.items distances.new next.new.items) }
{
    let index = vertex as usize;
    if distances[index].is_none() {
        distances[index] = Some(distance);
        next.push(vertex)?;
    }
    Ok(())
}
