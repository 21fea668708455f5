//! The calls that are entered: each has a number, the rows that enter it and the rows at which it may end.

ghost use Rattle.std.specs.Prelude.{◌≡◌, ◌<◌, ◌≤◌, [], length, true, false, IfSome, IfNone, IfOk, OnOk};
ghost use Rattle.hs_search.specs.Calling.{HasCall, IsCall, IsNumbered};
ghost use Rattle.hs_search.specs.Storing.{call_at, node_of};

use crate::graph::Node;
use crate::lists::Lists;
use crate::reach::Reach;
use hs_base::NoMemory;
use std::alloc::Global;

/// Calls by number.
#[derive(Drop)]
pub(crate) struct Calls {
    /// The fact with which each call was entered, by the operation with which it begins.
    pub entries: Lists<u64>,
    /// The rows that enter each call.
    pub callers: Lists<u32>,
    /// The rows at which each call may end.
    pub ends: Lists<u32>,
    /// Each call has a list of callers.
    pub ghost callers_wide: { length entries.items.items ≤ length callers.heads.items },
    /// Each call has a list of ends.
    pub ghost ends_wide: { length entries.items.items ≤ length ends.heads.items },
}

/// The number of the call that begins so, if it has one.
fn find(entries: &Lists<u64>, entry: Node) -> Option<usize>
    requires known { entry.at < length entries.now.heads.items }
    ensures some { IfSome result (IsCall entries.now.items.items entry) }
    ensures none { IfNone result (¬ (HasCall entries.now.items.items entry)) }
{
    let mut number = entries.last(entry.at);
    'calls: while number > 0 {
        let call = entries.item((number - 1) as usize);
        if call.value == entry.fact {
            return Some((number - 1) as usize);
        }
        number = call.link;
    }
    None
}

impl Calls {
    /// No calls, which may begin at so many operations.
    pub(crate) fn new(alloc: Global, width: usize) -> Result<Calls, NoMemory>
        ensures entries { IfOk result (λ it. it.entries.items.items ≡ []) }
        ensures callers { IfOk result (λ it. it.callers.items.items ≡ []) }
        ensures ends { IfOk result (λ it. it.ends.items.items ≡ []) }
        ensures wide { IfOk result (λ it. length it.entries.heads.items ≡ width) }
    {
        Ok(Calls {
            entries: Lists::new(alloc, width)?,
            callers: Lists::new(alloc, 0)?,
            ends: Lists::new(alloc, 0)?,
        })
    }

    /// The node of a row.
    pub(crate) fn node(&self, reach: Reach) -> Node
        requires known { reach.call < length self.now.entries.items.items }
        ensures { result ≡ node_of self.now.entries.items.items reach }
    {
        Node {
            at: reach.at,
            fact: reach.fact,
            entered: self.entries.item(reach.call as usize).value,
        }
    }

    /// The first node of the call of that number.
    pub(crate) fn first(&self, call: u32) -> Node
        requires known { call < length self.now.entries.items.items }
        ensures { result ≡ call_at self.now.entries.items.items call }
    {
        let first = self.entries.item(call as usize);
        Node {
            at: first.key,
            fact: first.value,
            entered: first.value,
        }
    }

    /// The number of the call that begins so. It gets one if it has none.
    pub(crate) fn number(&mut self, entry: Node) -> Result<u32, NoMemory>
        requires known { entry.at < length self.old.entries.heads.items }
        ensures numbered { IfOk result (λ n. IsNumbered entry n self.old.entries.items.items self.new.entries.items.items) }
        ensures wide { length self.new.entries.heads.items ≡ length self.old.entries.heads.items }
        ensures callers { self.new.callers.items.items ≡ self.old.callers.items.items }
        ensures ends { self.new.ends.items.items ≡ self.old.ends.items.items }
    {
        if let Some(call) = find(&self.entries, entry) {
            return Ok(call as u32);
        }
        let call = self.entries.len() as u32;
        self.callers.widen()?;
        self.ends.widen()?;
        self.entries.push(entry.at, entry.fact)?;
        Ok(call)
    }
}
