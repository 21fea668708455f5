//! Graphs whose steps may enter calls and leave them. `specs/Graphs.antt` has the definitions.

ghost use Rattle.std.specs.Prelude.{◌≡◌, ◌++◌, ◌<◌, OnOk};
ghost use Rattle.hs_search.specs.Graphs.{FlowGraph, IsFramed};

use hs_base::NoMemory;

/// A fact at an operation, with the fact with which its call was entered. Facts are codes that the graph chooses; equal codes are equal facts, and of
/// two facts the lower code comes first where chains of one length are compared.
#[derive(Clone, Copy)]
pub struct Node {
    /// The number of the operation, in the whole program.
    pub at: u32,
    /// The code of the fact.
    pub fact: u64,
    /// The code of the fact with which the call was entered.
    pub entered: u64,
}

/// Tells the steps of nodes.
pub trait Graph {
    /// The steps of nodes, as the definitions see them.
    ghost flow: { Self → FlowGraph };

    /// A step stays in its call, an entered call begins with its own node, and a return goes back to its caller's call.
    ghost framed: { (it : Self) → IsFramed (flow it) };

    /// How many operations there are.
    fn count(&self) -> u32
        ensures { result ≡ (flow self.now).count };

    /// Where every chain begins.
    fn start(&self) -> Node
        ensures { result ≡ (flow self.now).start };

    /// Puts the nodes that are one step on in the same call after those that are in the list.
    fn steps(&self, from: Node, into: &mut Vec<Node>) -> Result<(), NoMemory>
        requires within { from.at < (flow self.now).count }
        ensures { OnOk result (into.new.items ≡ into.old.items ++ (flow self.now).steps from) };

    /// The first node of the call that is entered there.
    fn enters(&self, from: Node) -> Option<Node>
        requires within { from.at < (flow self.now).count }
        ensures { result ≡ (flow self.now).enters from };

    /// Whether a call may end there.
    fn ends(&self, at: Node) -> bool
        requires within { at.at < (flow self.now).count }
        ensures { result ≡ (flow self.now).ends at };

    /// Where the caller goes on when its call ends at the last node.
    fn leaves(&self, caller: Node, last: Node) -> Option<Node>
        requires caller_within { caller.at < (flow self.now).count }
        requires last_within { last.at < (flow self.now).count }
        ensures { result ≡ (flow self.now).leaves caller last };
}
