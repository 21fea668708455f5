//! How much may flow over an edge, and what a flow adds up to at each vertex and over a set of them.

ghost use Rattle.std.specs.Prelude.{◌≡◌, ◌+◌, ◌<◌, ◌≤◌, ◌^◌, ℕ, pos, ◌+ℤ◌, cond, length, not, nat_eq, nat_lt, nat_abs, set, slice_index_or};
ghost use Rattle.std.specs.List.{All, position, zip};
ghost use Rattle.std.specs.Ordering.{int_eq};
ghost use Rattle.hs_cut.specs.Networks.{among};
ghost use Rattle.hs_cut.specs.Flows.{most, net_out, out_over};
ghost use Rattle.hs_cert.specs.Flags.{flagged};

use crate::flags::is_flagged;
use hs_cut::CutEdge;

/// The most that may flow over the edge, either way.
fn most(edge: &CutEdge) -> u64
    ensures { result ≡ most edge.now }
{
    if edge.slot { 1 } else { 2_147_483_647 }
}

/// The first edge over which more flows than may.
pub(crate) fn first_too_large(edges: &[CutEdge], flow: &[i64]) -> Option<usize>
    ensures { result ≡ position (λ it. nat_lt (most it.0) (nat_abs it.1)) (zip edges.now flow.now) }
{
    edges
        .iter()
        .zip(flow.iter())
        .position(|(edge, amount)| most(edge) < amount.unsigned_abs())
}

/// Adds the amount at the vertex.
fn add(sums: &mut [i64], vertex: u32, amount: i64)
    requires within { vertex < length sums.old }
    requires low { nat_abs (slice_index_or sums.old vertex (pos 0)) + 2147483647 < 2 ^ 63 }
    requires small { nat_abs amount ≤ 2147483647 }
    ensures { sums.new ≡ set sums.old vertex (slice_index_or sums.old vertex (pos 0) +ℤ amount) }
{
    sums[vertex as usize] += amount;
}

/// Puts into each place what flows out of its vertex, less what flows in.
pub(crate) fn balance(sums: &mut [i64], edges: &[CutEdge], flow: &[i64])
    requires numbered { All (λ edge. (edge.from < length sums.old) × (edge.to < length sums.old)) edges.now }
    requires countable { length edges.now < 2 ^ 32 }
    requires each { length flow.now ≡ length edges.now }
    requires small { All (λ amount. nat_abs amount ≤ 2147483647) flow.now }
    ensures length { length sums.new ≡ length sums.old }
    ensures sums { (vertex : ℕ) → slice_index_or sums.new vertex (pos 0) ≡ net_out (nat_eq vertex) edges.now flow.now }
{
    sums.fill(0);
    for (at, edge) in edges.iter().enumerate() {
        let amount = flow[at];
        add(sums, edge.from, amount);
        add(sums, edge.to, -amount);
    }
}

/// Puts 0 into the places of these vertices.
pub(crate) fn clear(sums: &mut [i64], vertices: &[u32])
    requires within { All (λ vertex. vertex < length sums.old) vertices.now }
    ensures length { length sums.new ≡ length sums.old }
    ensures sums { (vertex : ℕ) → slice_index_or sums.new vertex (pos 0) ≡ cond (among vertices.now vertex) (pos 0) (slice_index_or sums.old vertex (pos 0)) }
{
    for vertex in vertices {
        sums[*vertex as usize] = 0;
    }
}

/// The first place that is not 0.
fn first_nonzero(sums: &[i64]) -> Option<usize>
    ensures { result ≡ position (λ sum. not (int_eq sum (pos 0))) sums.now }
{
    sums.iter().position(|sum| *sum != 0)
}

/// The first of so many vertices whose place is not 0.
pub(crate) fn first_unequal(sums: &[i64], vertices: u32) -> Option<u32>
    requires vertices { length sums.now ≡ vertices }
    ensures { result ≡ position (λ sum. not (int_eq sum (pos 0))) sums.now }
{
    let vertex = first_nonzero(sums)?;
    Some(vertex as u32)
}

/// What the edge takes out of the flagged vertices, less what it brings in.
fn out_over(flags: &[i64], edge: &CutEdge, amount: i64) -> i64
    requires small { nat_abs amount ≤ 2147483647 }
    ensures { result ≡ out_over (flagged flags.now) edge.now amount }
{
    let out = if is_flagged(flags, edge.from) {
        amount
    } else {
        0
    };
    let brought = if is_flagged(flags, edge.to) {
        amount
    } else {
        0
    };
    out - brought
}

/// What flows out of the flagged vertices, less what flows in.
pub(crate) fn net_out(flags: &[i64], edges: &[CutEdge], flow: &[i64]) -> i64
    requires countable { length edges.now < 2 ^ 32 }
    requires each { length flow.now ≡ length edges.now }
    requires small { All (λ amount. nat_abs amount ≤ 2147483647) flow.now }
    ensures { result ≡ net_out (flagged flags.now) edges.now flow.now }
{
    let mut total = 0;
    for (at, edge) in edges.iter().enumerate() {
        total += out_over(flags, edge, flow[at]);
    }
    total
}
