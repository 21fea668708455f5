//! The search, as it is called, and its answer by number. `specs/Chains.antt` says what is found.

ghost use Rattle.std.specs.Prelude.{◌≡◌, ◌<◌, ◌≤◌, length, slice_get, Some, Err, IfOk};
ghost use Rattle.hs_search.specs.Chains.{IsFound, IsTooMany, pairs_at};
ghost use Rattle.hs_search.specs.Finding.{operations_of, pairs_of};
ghost use Rattle.hs_search.specs.declared.reach.SearchEnd.TheVariants.{Limit};

use crate::found::{Found, Pair};
use crate::graph::{Graph, Node};
use crate::reach::SearchEnd;
use crate::searching::explore;
use crate::sorting::sort;
use std::alloc::Global;

impl Found {
    /// How many nodes were found.
    pub fn len(&self) -> usize
        ensures { result ≡ length (pairs_of self.now) }
    {
        self.rows.len()
    }

    /// The pair of that number, in the order in which they were found.
    pub fn get(&self, number: usize) -> Pair
        requires known { number < length (pairs_of self.now) }
        ensures { slice_get (pairs_of self.now) number ≡ Some result }
    {
        let reach = self.rows.item(number).value;
        Pair {
            node: Node {
                at: reach.at,
                fact: reach.fact,
                entered: self.entries.item(reach.call as usize).value,
            },
            length: reach.length,
        }
    }
}

impl Found {
    /// How many pairs there are at an operation.
    pub fn count(&self, at: u32) -> usize
        requires known { at < operations_of self.now }
        ensures { result ≡ length (pairs_at at (pairs_of self.now)) }
    {
        self.starts[at as usize + 1] - self.starts[at as usize]
    }

    /// The row of the pair at a place.
    fn row(&self, at: u32, place: usize) -> usize
        requires known { at < operations_of self.now }
        requires place { place < length (pairs_at at (pairs_of self.now)) }
        ensures within { result < length (pairs_of self.now) }
        ensures is { slice_get (pairs_at at (pairs_of self.now)) place ≡ slice_get (pairs_of self.now) result }
    {
        let next = self.starts[at as usize + 1];
        self.order[next - 1 - place] as usize
    }

    /// The pair at a place of an operation, in the order in which they were found.
    pub fn pair(&self, at: u32, place: usize) -> Pair
        requires known { at < operations_of self.now }
        requires place { place < length (pairs_at at (pairs_of self.now)) }
        ensures { slice_get (pairs_at at (pairs_of self.now)) place ≡ Some result }
    {
        self.get(self.row(at, place))
    }
}

/// Finds all nodes that chains reach, each once, and the length of a shortest chain to each. A length that is more than `most` is given as one more than it.
///
/// Example: with a graph of one operation that steps nowhere, the start alone, with length 1.
///
/// # Errors
///
/// `Limit` if chains reach more than `room` nodes, and `NoMemory` if memory runs out.
pub fn search<G: Graph>(
    alloc: Global,
    graph: &G,
    room: usize,
    most: u32,
) -> Result<Found, SearchEnd>
    requires short { most ≤ 1000000 }
    ensures found { IfOk result (λ found. IsFound (G.flow graph.now) most (pairs_of found)) }
    ensures fits { IfOk result (λ found. length (pairs_of found) ≤ room) }
    ensures operations { IfOk result (λ found. operations_of found ≡ (G.flow graph.now).count) }
    ensures limit { result ≡ Err Limit → IsTooMany (G.flow graph.now) room }
{
    let search = explore(alloc, graph, room, most)?;
    let sorted = sort(alloc, &search.rows.lists, graph.count())?;
    Ok(Found {
        rows: search.rows.into_lists(),
        entries: search.calls.entries,
        order: sorted.order,
        starts: sorted.starts,
    })
}
