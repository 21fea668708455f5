//! What a row brings: its steps, the call that it enters, and the returns of calls. `specs/Bringing.antt` says what is offered.

ghost use Rattle.std.specs.Prelude.{◌≡◌, ◌<◌, ◌≤◌, ◌++◌, ◌^◌, [], length, map, option_map, slice_get, Some, OnOk};
ghost use Rattle.hs_search.specs.Bringing.{AreFit, AreRows, CallOffered, EndOffered, Gathers, IsFit, MakesCaller, MakesEnd, book_of, listed, step_back, step_on};
ghost use Rattle.hs_search.specs.Layout.{IsExpanded, IsLaidOut};
ghost use Rattle.hs_search.specs.Searching.{HasExpanded};
ghost use Rattle.hs_search.specs.Storing.{node_of};
ghost use Rattle.hs_search.specs.declared.lists.Item.{Item};
ghost use Rattle.hs_search.specs.declared.reach.Reach.{Reach};

use crate::calls::Calls;
use crate::graph::{Graph, Node};
use crate::lists::Lists;
use crate::reach::{Origin, Reach};
use hs_base::NoMemory;

/// Offers the nodes that are one step on from the row of that number, counted from 1. The buffer of nodes is lent.
pub(crate) fn offer_steps<G: Graph>(
    graph: &G,
    node: Node,
    up: u32,
    from: Reach,
    nodes: &mut Vec<Node>,
    near: &mut Vec<Reach>,
) -> Result<(), NoMemory>
    requires within { node.at < (G.flow graph.now).count }
    requires small { from.length ≤ 1000001 × (from.level ≤ 1000001) }
    ensures { OnOk result (near.new.items ≡ near.old.items ++ map (step_on up from) ((G.flow graph.now).steps node)) }
{
    nodes.clear();
    graph.steps(node, nodes)?;
    for next in nodes.as_slice() {
        near.push(Reach {
            fact: next.fact,
            at: next.at,
            call: from.call,
            length: from.length + 1,
            level: from.level + 1,
            origin: Origin { up, last: 0 },
        })?;
    }
    Ok(())
}

/// Offers what comes after a call that began at the caller and ended at the last row.
fn offer_return<G: Graph>(
    graph: &G,
    origin: Origin,
    caller: Node,
    from: Reach,
    last: Node,
    end: Reach,
    jumps: &mut Vec<Reach>,
) -> Result<(), NoMemory>
    requires caller_within { caller.at < (G.flow graph.now).count }
    requires last_within { last.at < (G.flow graph.now).count }
    requires small { from.length ≤ 1000001 × (from.level ≤ 1000001) × (end.level ≤ 1000001) }
    ensures { OnOk result (jumps.new.items ≡ jumps.old.items ++ listed (option_map (step_back origin from end) ((G.flow graph.now).leaves caller last))) }
{
    if let Some(node) = graph.leaves(caller, last) {
        jumps.push(Reach {
            fact: node.fact,
            at: node.at,
            call: from.call,
            length: from.length + end.level + 2,
            level: from.level + end.level + 2,
            origin,
        })?;
    }
    Ok(())
}

/// Offers the returns of a call to one of its callers, from each of its ends. The caller's row has that number, counted from 1.
fn offer_ends<G: Graph>(
    graph: &G,
    rows: &Lists<Reach>,
    calls: &Calls,
    call: u32,
    caller: Node,
    up: u32,
    from: Reach,
    jumps: &mut Vec<Reach>,
) -> Result<(), NoMemory>
    requires known { call < length calls.now.ends.heads.items }
    requires caller_within { caller.at < (G.flow graph.now).count }
    requires small { from.length ≤ 1000001 × (from.level ≤ 1000001) }
    requires fit { AreFit (G.flow graph.now).count (length calls.now.entries.items.items) rows.now.items.items }
    requires rows { AreRows rows.now.items.items calls.now.ends.items.items }
    ensures { OnOk result (Gathers calls.now.ends.items.items call (MakesEnd (G.flow graph.now) calls.now.entries.items.items rows.now.items.items caller up from) jumps.old.items jumps.new.items) }
{
    let mut number = calls.ends.last(call);
    'ends: while number > 0 {
        let end = calls.ends.item((number - 1) as usize);
        let last = rows.item(end.value as usize).value;
        let origin = Origin {
            up,
            last: end.value + 1,
        };
        offer_return(graph, origin, caller, from, calls.node(last), last, jumps)?;
        number = end.link;
    }
    Ok(())
}

/// Offers the returns of a call that ends there, to each of its callers. The end's row has that number, counted from 1.
fn offer_callers<G: Graph>(
    graph: &G,
    rows: &Lists<Reach>,
    calls: &Calls,
    last: Node,
    end_number: u32,
    end: Reach,
    jumps: &mut Vec<Reach>,
) -> Result<(), NoMemory>
    requires known { end.call < length calls.now.callers.heads.items }
    requires last_within { last.at < (G.flow graph.now).count }
    requires small { end.level ≤ 1000001 }
    requires fit { AreFit (G.flow graph.now).count (length calls.now.entries.items.items) rows.now.items.items }
    requires rows { AreRows rows.now.items.items calls.now.callers.items.items }
    ensures { OnOk result (Gathers calls.now.callers.items.items end.call (MakesCaller (G.flow graph.now) calls.now.entries.items.items rows.now.items.items last end_number end) jumps.old.items jumps.new.items) }
{
    let mut number = calls.callers.last(end.call);
    'callers: while number > 0 {
        let call = calls.callers.item((number - 1) as usize);
        let caller = rows.item(call.value as usize).value;
        let origin = Origin {
            up: call.value + 1,
            last: end_number,
        };
        offer_return(graph, origin, calls.node(caller), caller, last, end, jumps)?;
        number = call.link;
    }
    Ok(())
}

/// Offers the call that a row enters, and its returns.
fn offer_call<G: Graph>(
    graph: &G,
    rows: &Lists<Reach>,
    number: usize,
    node: Node,
    from: Reach,
    calls: &mut Calls,
    near: &mut Vec<Reach>,
    jumps: &mut Vec<Reach>,
) -> Result<(), NoMemory>
    requires number { number < length rows.now.items.items }
    requires within { node.at < (G.flow graph.now).count }
    requires operations { length calls.old.entries.heads.items ≡ (G.flow graph.now).count }
    requires small { from.length ≤ 1000001 × (from.level ≤ 1000001) }
    requires fit { AreFit (G.flow graph.now).count (length calls.old.entries.items.items) rows.now.items.items }
    requires rows { AreRows rows.now.items.items calls.old.ends.items.items }
    ensures offered { OnOk result (CallOffered (G.flow graph.now) rows.now.items.items number node from ((G.flow graph.now).enters node) (book_of calls.old) (book_of calls.new) near.old.items near.new.items jumps.old.items jumps.new.items) }
    ensures operations { length calls.new.entries.heads.items ≡ length calls.old.entries.heads.items }
{
    let Some(entry) = graph.enters(node) else {
        return Ok(());
    };
    let call = calls.number(entry)?;
    let up = number as u32 + 1;
    near.push(Reach {
        fact: entry.fact,
        at: entry.at,
        call,
        length: from.length + 1,
        level: 0,
        origin: Origin { up, last: 0 },
    })?;
    calls.callers.push(call, number as u32)?;
    offer_ends(graph, rows, calls, call, node, up, from, jumps)
}

/// Offers the returns of a call that may end at a row.
fn offer_end<G: Graph>(
    graph: &G,
    rows: &Lists<Reach>,
    number: usize,
    node: Node,
    from: Reach,
    calls: &mut Calls,
    jumps: &mut Vec<Reach>,
) -> Result<(), NoMemory>
    requires number { number < length rows.now.items.items }
    requires within { node.at < (G.flow graph.now).count }
    requires known { from.call < length calls.old.entries.items.items }
    requires small { from.level ≤ 1000001 }
    requires fit { AreFit (G.flow graph.now).count (length calls.old.entries.items.items) rows.now.items.items }
    requires rows { AreRows rows.now.items.items calls.old.callers.items.items }
    ensures offered { OnOk result (EndOffered (G.flow graph.now) rows.now.items.items number node from ((G.flow graph.now).ends node) (book_of calls.old) (book_of calls.new) jumps.old.items jumps.new.items) }
    ensures operations { length calls.new.entries.heads.items ≡ length calls.old.entries.heads.items }
{
    if !graph.ends(node) {
        return Ok(());
    }
    calls.ends.push(from.call, number as u32)?;
    offer_callers(graph, rows, calls, node, number as u32 + 1, from, jumps)
}

/// Offers all that a row brings, and lists the row as a caller or an end.
pub(crate) fn expand<G: Graph>(
    graph: &G,
    rows: &Lists<Reach>,
    number: usize,
    calls: &mut Calls,
    nodes: &mut Vec<Node>,
    near: &mut Vec<Reach>,
    jumps: &mut Vec<Reach>,
) -> Result<(), NoMemory>
    requires number { number < length rows.now.items.items }
    requires operations { length calls.old.entries.heads.items ≡ (G.flow graph.now).count }
    requires laid_out { IsLaidOut (G.flow graph.now) rows.now.items.items (book_of calls.old) number }
    ensures expanded { OnOk result ((it : Item Reach) → slice_get rows.now.items.items number ≡ Some it → IsExpanded (G.flow graph.now) rows.now.items.items number it (book_of calls.old) (book_of calls.new) near.old.items near.new.items jumps.old.items jumps.new.items) }
    ensures operations { length calls.new.entries.heads.items ≡ length calls.old.entries.heads.items }
{
    let from = rows.item(number).value;
    let node = calls.node(from);
    offer_steps(graph, node, number as u32 + 1, from, nodes, near)?;
    offer_call(graph, rows, number, node, from, calls, near, jumps)?;
    offer_end(graph, rows, number, node, from, calls, jumps)
}

/// Expands the rows from a number on. Nothing is offered yet.
pub(crate) fn expand_from<G: Graph>(
    graph: &G,
    rows: &Lists<Reach>,
    first: usize,
    calls: &mut Calls,
    nodes: &mut Vec<Node>,
    near: &mut Vec<Reach>,
    jumps: &mut Vec<Reach>,
) -> Result<(), NoMemory>
    requires first { first ≤ length rows.now.items.items }
    requires operations { length calls.old.entries.heads.items ≡ (G.flow graph.now).count }
    requires laid_out { IsLaidOut (G.flow graph.now) rows.now.items.items (book_of calls.old) first }
    requires near { near.old.items ≡ [] }
    requires jumps { jumps.old.items ≡ [] }
    ensures expanded { OnOk result (HasExpanded (G.flow graph.now) rows.now.items.items first (length rows.now.items.items) (book_of calls.old) (book_of calls.new) near.new.items jumps.new.items) }
    ensures operations { length calls.new.entries.heads.items ≡ length calls.old.entries.heads.items }
{
    for number in first..rows.len() {
        expand(graph, rows, number, calls, nodes, near, jumps)?;
    }
    Ok(())
}
