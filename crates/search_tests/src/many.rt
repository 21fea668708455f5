//! Many facts at one operation of a function that is called from two places.

ghost use Rattle.std.specs.Prelude.{◌≡◌, IfOk};
ghost use Rattle.hs_search.specs.Finding.{operations_of};
ghost use Rattle.search_tests.specs.Many.{after_fact, many_framed, many_graph};

use crate::helper::is_so;
use hs_base::NoMemory;
use hs_search::{Found, Graph, Node, SearchEnd, search};
use std::alloc::Global;
use std::test::Fail;

/// The graph of a function that is called twice, and has 41 facts at one operation.
#[derive(Drop)]
struct Many {
    /// The fact at the start, which the first call passes.
    fact: u64,
    /// The fact that the second call passes.
    other: u64,
}

/// The next fact, or the end of the function.
fn after_fact(from: Node) -> Node
    ensures { result ≡ after_fact from }
{
    if from.fact < 40 {
        Node {
            at: 4,
            fact: from.fact + 1,
            entered: from.entered,
        }
    } else {
        Node {
            at: 5,
            fact: from.fact,
            entered: from.entered,
        }
    }
}

impl Graph for Many {
    ghost flow = { λ it. many_graph it.fact it.other };

    ghost framed = { λ it. many_framed it.fact it.other };

    fn count(&self) -> u32 {
        6
    }

    fn start(&self) -> Node {
        Node {
            at: 0,
            fact: self.fact,
            entered: self.fact,
        }
    }

    fn steps(&self, from: Node, into: &mut Vec<Node>) -> Result<(), NoMemory> {
        if from.at == 3 {
            into.push(Node {
                at: 4,
                fact: 0,
                entered: from.entered,
            })?;
        } else if from.at == 4 {
            into.push(Node {
                at: 4,
                fact: 0,
                entered: from.entered,
            })?;
            into.push(after_fact(from))?;
        }
        Ok(())
    }

    fn enters(&self, from: Node) -> Option<Node> {
        if from.at == 0 {
            Some(Node {
                at: 3,
                fact: from.fact,
                entered: from.fact,
            })
        } else if from.at == 1 {
            Some(Node {
                at: 3,
                fact: self.other,
                entered: self.other,
            })
        } else {
            None
        }
    }

    fn ends(&self, at: Node) -> bool {
        at.at == 5
    }

    fn leaves(&self, caller: Node, last: Node) -> Option<Node> {
        if last.at == 5 && caller.at < 2 {
            Some(Node {
                at: caller.at + 1,
                fact: last.fact,
                entered: caller.entered,
            })
        } else {
            None
        }
    }
}

/// What is found.
fn found(alloc: Global) -> Result<Found, SearchEnd>
    ensures { IfOk result (λ found. operations_of found ≡ 6) }
{
    let graph = Many { fact: 1, other: 2 };
    search(alloc, &graph, 89, 1000)
}

/// Whether the pairs of operation 4 from a place on are the facts from 0 to 40 of a call, the first of which has that length.
fn are_facts(found: &Found, first: usize, entered: u64, length: u32) -> bool
    requires operations { operations_of found.now ≡ 6 }
{
    if first > 41 || length > 1000 || found.count(4) != 82 {
        return false;
    }
    for fact in 0..41 {
        let row = (4, fact as u64, entered, length + fact as u32);
        if !is_so(found.pair(4, first + fact), row) {
            return false;
        }
    }
    true
}

// Each of the 41 facts is found once in each of the two calls, also those that are offered again: 0 by each of them.
#[test]
fn many_facts_are_found_once(rt: HostRuntime) -> Result<(), Fail> {
    match found(rt.alloc()) {
        Ok(found) => {
            assert_eq!(rt; found.len(), 89);
            assert_eq!(rt; found.count(4), 82);
            assert!(rt; are_facts(&found, 0, 1, 3));
            assert!(rt; are_facts(&found, 41, 2, 47));
            assert!(rt; found.count(2) == 1 && is_so(found.pair(2, 0), (2, 40, 1, 89)));
            Ok(())
        }
        Err(_) => Err(Fail::new("there is room, and memory")),
    }
}
