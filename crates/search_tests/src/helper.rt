//! A helper that is called from two places, each time with another fact.

ghost use Rattle.std.specs.Prelude.{◌≡◌, IfOk};
ghost use Rattle.hs_search.specs.Finding.{operations_of};
ghost use Rattle.search_tests.specs.Helper.{helper_framed, helper_graph};

use hs_base::NoMemory;
use hs_search::{Found, Graph, Node, Pair, SearchEnd, search};
use std::alloc::Global;
use std::test::Fail;

/// The graph of a function that is called twice.
#[derive(Drop)]
struct Helper {
    /// The fact at the start, which the first call passes.
    fact: u64,
    /// The fact that the second call passes.
    other: u64,
}

impl Graph for Helper {
    ghost flow = { λ it. helper_graph it.fact it.other };

    ghost framed = { λ it. helper_framed it.fact it.other };

    fn count(&self) -> u32 {
        5
    }

    fn start(&self) -> Node {
        Node {
            at: 0,
            fact: self.fact,
            entered: self.fact,
        }
    }

    fn steps(&self, from: Node, into: &mut Vec<Node>) -> Result<(), NoMemory> {
        if from.at == 3 {
            into.push(Node {
                at: 4,
                fact: from.fact,
                entered: from.entered,
            })?;
        }
        Ok(())
    }

    fn enters(&self, from: Node) -> Option<Node> {
        if from.at == 0 {
            Some(Node {
                at: 3,
                fact: from.fact,
                entered: from.fact,
            })
        } else if from.at == 1 {
            Some(Node {
                at: 3,
                fact: self.other,
                entered: self.other,
            })
        } else {
            None
        }
    }

    fn ends(&self, at: Node) -> bool {
        at.at == 4
    }

    fn leaves(&self, caller: Node, last: Node) -> Option<Node> {
        if last.at == 4 && caller.at < 2 {
            Some(Node {
                at: caller.at + 1,
                fact: last.fact,
                entered: caller.entered,
            })
        } else {
            None
        }
    }
}

/// What is found, with room for so many pairs.
fn found(alloc: Global, room: usize, most: u32) -> Result<Found, SearchEnd>
    ensures { IfOk result (λ found. operations_of found ≡ 5) }
{
    let graph = Helper { fact: 1, other: 2 };
    if most <= 1000 {
        search(alloc, &graph, room, most)
    } else {
        Err(SearchEnd::NoMemory)
    }
}

/// Whether a pair has that operation, that fact, that entered fact and that length.
pub(crate) fn is_so(pair: Pair, row: (u32, u64, u64, u32)) -> bool {
    let (at, fact, entered, length) = row;
    pair.node.at == at
        && pair.node.fact == fact
        && pair.node.entered == entered
        && pair.length == length
}

/// Whether the pair of that number is so.
fn has(found: &Found, number: usize, row: (u32, u64, u64, u32)) -> bool {
    number < found.len() && is_so(found.get(number), row)
}

// Each call goes back to its own caller, with the fact that it was entered with.
#[test]
fn calls_match_returns(rt: HostRuntime) -> Result<(), Fail> {
    let rows: [(u32, u64, u64, u32); 7] = [
        (0, 1, 1, 1),
        (3, 1, 1, 2),
        (4, 1, 1, 3),
        (1, 1, 1, 4),
        (3, 2, 2, 5),
        (4, 2, 2, 6),
        (2, 2, 1, 7),
    ];
    match found(rt.alloc(), 7, 1000) {
        Ok(found) => {
            assert_eq!(rt; found.len(), 7);
            for number in 0..7 {
                assert!(rt; has(&found, number, rows[number]));
            }
            Ok(())
        }
        Err(_) => Err(Fail::new("there is room, and memory")),
    }
}

/// Whether an operation below 5 has a pair at the place, and it is so.
fn has_at(found: &Found, place: usize, row: (u32, u64, u64, u32)) -> bool
    requires operations { operations_of found.now ≡ 5 }
{
    row.0 < 5 && place < found.count(row.0) && is_so(found.pair(row.0, place), row)
}

// The pairs of an operation come in the order in which they were found.
#[test]
fn pairs_are_given_by_operation(rt: HostRuntime) -> Result<(), Fail> {
    match found(rt.alloc(), 7, 1000) {
        Ok(found) => {
            assert_eq!(rt; found.count(3), 2);
            assert!(rt; has_at(&found, 0, (3, 1, 1, 2)));
            assert!(rt; has_at(&found, 1, (3, 2, 2, 5)));
            assert_eq!(rt; found.count(2), 1);
            Ok(())
        }
        Err(_) => Err(Fail::new("there is room, and memory")),
    }
}

// A chain with more entries than the most has one more than the most as its length, and its node is found all the same.
#[test]
fn longer_chains_count_as_one_more(rt: HostRuntime) -> Result<(), Fail> {
    match found(rt.alloc(), 7, 4) {
        Ok(found) => {
            assert_eq!(rt; found.len(), 7);
            assert!(rt; has_at(&found, 0, (1, 1, 1, 4)));
            assert!(rt; has_at(&found, 1, (3, 2, 2, 5)));
            assert!(rt; has_at(&found, 0, (2, 2, 1, 5)));
            Ok(())
        }
        Err(_) => Err(Fail::new("there is room, and memory")),
    }
}

// With room for one node less there is no answer.
#[test]
fn too_many_nodes_are_refused(rt: HostRuntime) -> Result<(), Fail> {
    match found(rt.alloc(), 6, 1000) {
        Ok(_) => Err(Fail::new("there are seven nodes")),
        Err(SearchEnd::NoMemory) => Err(Fail::new("there is memory")),
        Err(SearchEnd::Limit) => Ok(()),
    }
}
