//! Vertices that are flagged, and the edges that cross from them to the others.

ghost use Rattle.std.specs.Prelude.{◌≡◌, ◌<◌, ℕ, length, not, ◌&&◌};
ghost use Rattle.std.specs.List.{All, list_all, list_any, position};
ghost use Rattle.hs_cut.specs.Networks.{among, crosses, crossings};
ghost use Rattle.hs_cert.specs.Flags.{flagged};

use hs_cut::CutEdge;

/// Whether the vertex is flagged.
pub(crate) fn is_flagged(flags: &[i64], vertex: u32) -> bool
    ensures { result ≡ flagged flags.now vertex }
{
    flags.get(vertex as usize).is_some_and(|flag| *flag != 0)
}

/// Flags these vertices, and no others.
pub(crate) fn flag(flags: &mut [i64], vertices: &[u32])
    requires within { All (λ vertex. vertex < length flags.old) vertices.now }
    ensures length { length flags.new ≡ length flags.old }
    ensures flags { (vertex : ℕ) → flagged flags.new vertex ≡ among vertices.now vertex }
{
    flags.fill(0);
    for vertex in vertices {
        flags[*vertex as usize] = 1;
    }
}

/// Whether each of the vertices is flagged.
pub(crate) fn all_flagged(flags: &[i64], vertices: &[u32]) -> bool
    ensures { result ≡ list_all (flagged flags.now) vertices.now }
{
    vertices.iter().all(|vertex| is_flagged(flags, *vertex))
}

/// Whether one of the vertices is flagged.
pub(crate) fn any_flagged(flags: &[i64], vertices: &[u32]) -> bool
    ensures { result ≡ list_any (flagged flags.now) vertices.now }
{
    vertices.iter().any(|vertex| is_flagged(flags, *vertex))
}

/// Whether exactly one end of the edge is flagged.
fn crosses(flags: &[i64], edge: &CutEdge) -> bool
    ensures { result ≡ crosses (flagged flags.now) edge.now }
{
    is_flagged(flags, edge.from) ^ is_flagged(flags, edge.to)
}

/// How many edges cross.
pub(crate) fn crossings(flags: &[i64], edges: &[CutEdge]) -> usize
    ensures { result ≡ crossings (flagged flags.now) edges.now }
{
    edges.iter().filter(|edge| crosses(flags, edge)).count()
}

/// The first edge that crosses and is no slot.
pub(crate) fn first_slotless(flags: &[i64], edges: &[CutEdge]) -> Option<usize>
    ensures { result ≡ position (λ edge. not edge.slot && crosses (flagged flags.now) edge) edges.now }
{
    edges
        .iter()
        .position(|edge| !edge.slot && crosses(flags, edge))
}
