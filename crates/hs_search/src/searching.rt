//! The search: rounds by length, and what is left past the most. `specs/Searching.antt` has the state between them.

ghost use Rattle.std.specs.Prelude.{◌≡◌, ◌<◌, ◌≤◌, ◌⊎◌, [], ℕ, suc, true, length, IfOk, IfSome, OnOk};
ghost use Rattle.hs_search.specs.Bringing.{book_of};
ghost use Rattle.hs_search.specs.Choices.{IsChoice};
ghost use Rattle.hs_search.specs.Graphs.{Has};
ghost use Rattle.hs_search.specs.Rivals.{AreOffered};
ghost use Rattle.hs_search.specs.Searching.{AreBelow, Goes, IsBetween, IsPast, IsPutOff, TakesAll, Waits, key_of};
ghost use Rattle.hs_search.specs.States.{Explores, IsComplete, IsEnded, IsPassing, IsRound};
ghost use Rattle.hs_search.specs.Storing.{AllBelow, AllListedBelow, rows_of};

use crate::calls::Calls;
use crate::graph::{Graph, Node};
use crate::hashing::Rows;
use crate::lists::Lists;
use crate::offering::expand_from;
use crate::reach::{Origin, Reach, SearchEnd, take_each, take_listed};
use hs_base::NoMemory;
use std::alloc::Global;

/// A search that goes on.
#[derive(Drop)]
pub(crate) struct Search {
    /// The nodes that were found, listed by operation.
    pub rows: Rows,
    /// Their calls.
    pub calls: Calls,
    /// A buffer for the steps of one node.
    pub nodes: Vec<Node>,
    /// Offers for the next round.
    pub near: Vec<Reach>,
    /// Returns of calls that are not listed yet.
    pub jumps: Vec<Reach>,
    /// Returns of calls, listed by length.
    pub far: Lists<Reach>,
    /// No return is listed by more.
    pub latest: u32,
}

/// By which length an offer is listed.
fn key(length: u32, most: u32) -> u32
    requires short { most ≤ 1000000 }
    ensures is { result ≡ key_of most length }
    ensures within { result ≤ suc most }
{
    if length > most { most + 1 } else { length }
}

/// Lists returns by their lengths, and answers by which number none is past.
fn put_off(
    far: &mut Lists<Reach>,
    jumps: &mut Vec<Reach>,
    latest: u32,
    most: u32,
) -> Result<u32, NoMemory>
    requires short { most ≤ 1000000 }
    requires below { AreBelow latest far.old.items.items }
    ensures put { OnOk result (IsPutOff most jumps.old.items far.old.items.items far.new.items.items) }
    ensures below { IfOk result (λ now. AreBelow now far.new.items.items) }
    ensures empty { OnOk result (jumps.new.items ≡ []) }
{
    let mut last = latest;
    for jump in jumps.as_slice() {
        let key = key(jump.length, most);
        far.widen_to(key)?;
        far.push(key, *jump)?;
        last = later(last, key);
    }
    jumps.clear();
    Ok(last)
}

/// The greater of two numbers.
fn later(a: u32, b: u32) -> u32
    ensures left { a ≤ result }
    ensures right { b ≤ result }
{
    if a < b { b } else { a }
}

/// Takes the offers of a round: those of the last round, and those that are listed by a number.
fn take_waiting(
    rows: &mut Rows,
    ties: Option<&Calls>,
    near: &mut Vec<Reach>,
    far: &Lists<Reach>,
    key: u32,
    room: usize,
    most: u32,
) -> Result<(), SearchEnd>
    requires near { AllBelow (length rows.old.lists.heads.items) near.old.items }
    requires far { AllListedBelow (length rows.old.lists.heads.items) far.now.items.items }
    requires short { most ≤ 1000000 }
    requires offered { IfSome ties (λ calls. AreOffered calls.now.entries.items.items most rows.old.lists.items.items (Waits near.old.items far.now.items.items key)) }
    ensures taken { TakesAll room most (Waits near.old.items far.now.items.items key) rows.old.lists.items.items rows.new.lists.items.items result }
    ensures chosen { OnOk result (IfSome ties.entry (λ calls. IsChoice calls.now.entries.items.items room most (Waits near.old.items far.now.items.items key) rows.old.lists.items.items rows.new.lists.items.items)) }
    ensures empty { OnOk result (near.new.items ≡ []) }
    ensures wide { length rows.new.lists.heads.items ≡ length rows.old.lists.heads.items }
{
    take_each(rows, ties, near.as_slice(), room, most)?;
    near.clear();
    take_listed(rows, ties, far, key, room, most)
}

/// Takes the offers of a pass past the most.
fn take_offers(
    rows: &mut Rows,
    near: &mut Vec<Reach>,
    jumps: &mut Vec<Reach>,
    room: usize,
    most: u32,
) -> Result<(), SearchEnd>
    requires near { AllBelow (length rows.old.lists.heads.items) near.old.items }
    requires jumps { AllBelow (length rows.old.lists.heads.items) jumps.old.items }
    requires short { most ≤ 1000000 }
    ensures taken { TakesAll room most (λ s. Has near.old.items s ⊎ Has jumps.old.items s) rows.old.lists.items.items rows.new.lists.items.items result }
    ensures near_empty { OnOk result (near.new.items ≡ []) }
    ensures jumps_empty { OnOk result (jumps.new.items ≡ []) }
    ensures wide { length rows.new.lists.heads.items ≡ length rows.old.lists.heads.items }
{
    take_each(rows, None, near.as_slice(), room, most)?;
    take_each(rows, None, jumps.as_slice(), room, most)?;
    near.clear();
    jumps.clear();
    Ok(())
}

/// The search before its first round: the start is offered.
fn begin<G: Graph>(alloc: Global, graph: &G, most: u32) -> Result<Search, NoMemory>
    requires short { most ≤ 1000000 }
    ensures round { (room : ℕ) → IfOk result (IsRound (G.flow graph.now) room most 1) }
{
    let count = graph.count() as usize;
    let mut calls = Calls::new(alloc, count)?;
    let start = graph.start();
    let call = calls.number(start)?;
    let mut near = Vec::new(alloc);
    near.push(Reach {
        fact: start.fact,
        at: start.at,
        call,
        length: 1,
        level: 0,
        origin: Origin { up: 0, last: 0 },
    })?;
    Ok(Search {
        rows: Rows::new(alloc, count)?,
        calls,
        nodes: Vec::new(alloc),
        near,
        jumps: Vec::new(alloc),
        far: Lists::new(alloc, 0)?,
        latest: 0,
    })
}

/// A round: takes the offers of a length, and expands the rows that came of them.
fn round<G: Graph>(
    graph: &G,
    search: &mut Search,
    length: u32,
    room: usize,
    most: u32,
) -> Result<(), SearchEnd>
    requires short { most ≤ 1000000 }
    requires within { length ≤ most }
    requires round { IsRound (G.flow graph.now) room most length search.old }
    ensures { Goes (G.flow graph.now) room (IsRound (G.flow graph.now) room most (suc length) search.new) result }
{
    let first = search.rows.len();
    take_waiting(
        &mut search.rows,
        Some(&search.calls),
        &mut search.near,
        &search.far,
        length,
        room,
        most,
    )?;
    let rows = &search.rows;
    expand_from(
        graph,
        &rows.lists,
        first,
        &mut search.calls,
        &mut search.nodes,
        &mut search.near,
        &mut search.jumps,
    )?;
    search.latest = put_off(&mut search.far, &mut search.jumps, search.latest, most)?;
    Ok(())
}

/// Whether nothing is offered for a length or more.
fn is_done(near: &[Reach], latest: u32, length: u32) -> bool
    ensures { result ≡ true → (near.now ≡ []) × (latest < length) }
{
    near.is_empty() && latest < length
}

/// All rounds.
fn rounds<G: Graph>(graph: &G, search: &mut Search, room: usize, most: u32) -> Result<(), SearchEnd>
    requires short { most ≤ 1000000 }
    requires round { IsRound (G.flow graph.now) room most 1 search.old }
    ensures { Goes (G.flow graph.now) room (IsEnded (G.flow graph.now) room most search.new) result }
{
    let mut length = 1;
    'rounds: while length <= most {
        if is_done(search.near.as_slice(), search.latest, length) {
            return Ok(());
        }
        round(graph, search, length, room, most)?;
        length += 1;
    }
    Ok(())
}

/// A pass past the most: takes all offers, and expands the rows that came of them.
fn pass<G: Graph>(graph: &G, search: &mut Search, room: usize, most: u32) -> Result<(), SearchEnd>
    requires short { most ≤ 1000000 }
    requires passing { IsPassing (G.flow graph.now) room most search.old }
    ensures { Goes (G.flow graph.now) room (IsPassing (G.flow graph.now) room most search.new) result }
{
    let first = search.rows.len();
    take_offers(
        &mut search.rows,
        &mut search.near,
        &mut search.jumps,
        room,
        most,
    )?;
    let rows = &search.rows;
    expand_from(
        graph,
        &rows.lists,
        first,
        &mut search.calls,
        &mut search.nodes,
        &mut search.near,
        &mut search.jumps,
    )?;
    Ok(())
}

/// The first pass: takes what the rounds have left.
fn first_pass<G: Graph>(
    graph: &G,
    search: &mut Search,
    room: usize,
    most: u32,
) -> Result<(), SearchEnd>
    requires short { most ≤ 1000000 }
    requires ended { IsEnded (G.flow graph.now) room most search.old }
    ensures { Goes (G.flow graph.now) room (IsPassing (G.flow graph.now) room most search.new) result }
{
    let first = search.rows.len();
    take_waiting(
        &mut search.rows,
        None,
        &mut search.near,
        &search.far,
        most + 1,
        room,
        most,
    )?;
    let rows = &search.rows;
    expand_from(
        graph,
        &rows.lists,
        first,
        &mut search.calls,
        &mut search.nodes,
        &mut search.near,
        &mut search.jumps,
    )?;
    Ok(())
}

/// Passes over what is left, until nothing is.
fn close<G: Graph>(graph: &G, search: &mut Search, room: usize, most: u32) -> Result<(), SearchEnd>
    requires short { most ≤ 1000000 }
    requires ended { IsEnded (G.flow graph.now) room most search.old }
    ensures { Goes (G.flow graph.now) room (IsComplete (G.flow graph.now) room most search.new) result }
{
    first_pass(graph, search, room, most)?;
    // Each pass but the last finds a node, so there are not so many.
    'passes: for _ in 0..u64::MAX {
        if search.near.is_empty() && search.jumps.is_empty() {
            return Ok(());
        }
        pass(graph, search, room, most)?;
    }
    Err(SearchEnd::NoMemory)
}

/// Searches until nothing is left.
pub(crate) fn explore<G: Graph>(
    alloc: Global,
    graph: &G,
    room: usize,
    most: u32,
) -> Result<Search, SearchEnd>
    requires short { most ≤ 1000000 }
    ensures { Explores (G.flow graph.now) room most result }
{
    let mut search = begin(alloc, graph, most)?;
    rounds(graph, &mut search, room, most)?;
    close(graph, &mut search, room, most)?;
    Ok(search)
}
