//! What a search finds, as it is stored.

ghost use Rattle.std.specs.Prelude.{◌≡◌, suc, length};
ghost use Rattle.hs_search.specs.Sorting.{AreKeyed, AreParts};
ghost use Rattle.hs_search.specs.Storing.{AllKnown};

use crate::graph::Node;
use crate::lists::Lists;
use crate::reach::Reach;

/// A node that chains reach, and the length of a shortest one.
#[derive(Clone, Copy)]
pub struct Pair {
    /// The node.
    pub node: Node,
    /// The entries of a shortest chain to it, or one more than the most that were asked for.
    pub length: u32,
}

/// What was found.
#[derive(Drop)]
pub struct Found {
    /// The nodes, listed by operation.
    pub(crate) rows: Lists<Reach>,
    /// The fact with which each call was entered.
    pub(crate) entries: Lists<u64>,
    /// The numbers of rows, one operation after the other, of each the newest first.
    pub(crate) order: Vec<u32>,
    /// Where those of each operation start.
    pub(crate) starts: Vec<usize>,
    /// Each row's call has a number.
    pub(crate) ghost known: { AllKnown (length entries.items.items) rows.items.items },
    /// Each row is listed by its operation.
    pub(crate) ghost keyed: { AreKeyed rows.items.items },
    /// The numbers are those of the operations.
    pub(crate) ghost parts: { AreParts (length rows.heads.items) rows.items.items order.items starts.items },
    /// There is a start for each operation, and an end.
    pub(crate) ghost long: { length starts.items ≡ suc (length rows.heads.items) },
}
