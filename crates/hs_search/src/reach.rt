//! Nodes as the search stores them, and the rows of those that are reached. `specs/Storing.antt` says what is stored.

ghost use Rattle.std.specs.Prelude.{◌≡◌, ◌≢◌, ◌<◌, ◌≤◌, ◌⊎◌, ◌^◌, length, true, false, IfSome, OnOk};
ghost use Rattle.hs_search.specs.Choices.{Chooses, Choosing, IsChoice};
ghost use Rattle.hs_search.specs.Graphs.{Has};
ghost use Rattle.hs_search.specs.Rivals.{AreOffered, IsOffered, Settles};
ghost use Rattle.hs_search.specs.Storing.{AllBelow, AllListedBelow, IsListed, IsRowOf, Takes, TakesEach, TakesListed, capped};
ghost use Rattle.hs_search.specs.declared.reach.SearchEnd.TheVariants.{NoMemory as no_memory};

use crate::calls::Calls;
use crate::hashing::{Place, Rows};
use crate::judging::precedes;
use crate::lists::Lists;
use hs_base::NoMemory;

/// By which rows a row was reached. Rows are counted from 1.
#[derive(Clone, Copy)]
pub(crate) struct Origin {
    /// The row that steps to it, that enters its call, or that went on after a call. 0 for the start.
    pub up: u32,
    /// The row at which that call ended, or 0 if there was none.
    pub last: u32,
}

/// A node and a length: of the chain that offers it, or of a shortest one.
#[derive(Clone, Copy)]
pub(crate) struct Reach {
    /// The code of the fact.
    pub fact: u64,
    /// The number of the operation.
    pub at: u32,
    /// The number of the call that the node is in.
    pub call: u32,
    /// How many entries the chain has.
    pub length: u32,
    /// How many of them come after the first one of the call.
    pub level: u32,
    /// Its link to the rows before it.
    pub origin: Origin,
}

/// Why a search finds nothing.
#[derive(Clone, Copy, Drop)]
pub enum SearchEnd {
    /// Chains reach more nodes than there is room for.
    Limit,
    /// Memory was refused.
    NoMemory,
}

impl From<NoMemory> for SearchEnd {
    ghost from_gives = { λ _ e. e ≡ no_memory };

    fn from(_refused: NoMemory) -> SearchEnd {
        SearchEnd::NoMemory
    }
}

/// The node with its length, or with one more than the most if it is longer.
fn cap(reach: Reach, most: u32) -> Reach
    requires short { most ≤ 1000000 }
    ensures { result ≡ capped most reach }
{
    if reach.length > most {
        Reach {
            fact: reach.fact,
            at: reach.at,
            call: reach.call,
            length: most + 1,
            level: most + 1,
            origin: reach.origin,
        }
    } else {
        reach
    }
}

/// Whether a row and an offer have as many entries and different links.
fn is_tie(row: Reach, offer: Reach) -> bool
    ensures tie { result ≡ true → row.length ≡ offer.length }
    ensures other { result ≡ false → (row.length ≢ offer.length) ⊎ (row.origin ≡ offer.origin) }
{
    row.length == offer.length
        && (row.origin.up != offer.origin.up || row.origin.last != offer.origin.last)
}

/// Replaces the row of an offer's node by the offer, if both chains have as many entries and that of the offer comes first.
fn settle(rows: &mut Rows, calls: &Calls, offer: Reach, number: usize)
    requires row { IsRowOf rows.old.lists.items.items offer number }
    requires offered { IsOffered calls.now.entries.items.items rows.old.lists.items.items offer }
    ensures settled { Settles calls.now.entries.items.items offer number rows.old.lists.items.items rows.new.lists.items.items }
    ensures wide { length rows.new.lists.heads.items ≡ length rows.old.lists.heads.items }
{
    let row = rows.lists.item(number).value;
    if is_tie(row, offer) && precedes(&rows.lists, calls, offer, number) {
        rows.replace(number, offer);
    }
}

/// Makes a row of an offer, if its node has none. If it has one, and ties are settled by the calls, the chain that comes first stays.
fn take(
    rows: &mut Rows,
    ties: Option<&Calls>,
    offer: Reach,
    room: usize,
    most: u32,
) -> Result<(), SearchEnd>
    requires known { offer.at < length rows.old.lists.heads.items }
    requires short { most ≤ 1000000 }
    requires offered { IfSome ties (λ calls. IsOffered calls.now.entries.items.items rows.old.lists.items.items offer × (offer.length ≤ most)) }
    ensures taken { Takes room most offer rows.old.lists.items.items rows.new.lists.items.items result }
    ensures chosen { OnOk result (IfSome ties.entry (λ calls. Chooses calls.now.entries.items.items room most offer rows.old.lists.items.items rows.new.lists.items.items)) }
    ensures wide { length rows.new.lists.heads.items ≡ length rows.old.lists.heads.items }
{
    match rows.find(offer) {
        Place::Row(number) => {
            if let Some(calls) = ties {
                settle(rows, calls, offer, number);
            }
            Ok(())
        }
        Place::Nowhere(leaving) => {
            if rows.len() >= room {
                return Err(SearchEnd::Limit);
            }
            rows.push(offer.at, cap(offer, most), leaving)?;
            Ok(())
        }
    }
}

/// Makes rows of offers.
pub(crate) fn take_each(
    rows: &mut Rows,
    ties: Option<&Calls>,
    offers: &[Reach],
    room: usize,
    most: u32,
) -> Result<(), SearchEnd>
    requires known { AllBelow (length rows.old.lists.heads.items) offers.now }
    requires short { most ≤ 1000000 }
    requires offered { IfSome ties (λ calls. AreOffered calls.now.entries.items.items most rows.old.lists.items.items (Has offers.now)) }
    ensures taken { TakesEach room most offers.now rows.old.lists.items.items rows.new.lists.items.items result }
    ensures chosen { OnOk result (IfSome ties.entry (λ calls. Choosing calls.now.entries.items.items room most offers.now rows.old.lists.items.items rows.new.lists.items.items)) }
    ensures wide { length rows.new.lists.heads.items ≡ length rows.old.lists.heads.items }
{
    for offer in offers {
        take(rows, ties, *offer, room, most)?;
    }
    Ok(())
}

/// Makes rows of the offers that are listed by a key.
pub(crate) fn take_listed(
    rows: &mut Rows,
    ties: Option<&Calls>,
    offers: &Lists<Reach>,
    key: u32,
    room: usize,
    most: u32,
) -> Result<(), SearchEnd>
    requires known { AllListedBelow (length rows.old.lists.heads.items) offers.now.items.items }
    requires short { most ≤ 1000000 }
    requires offered { IfSome ties (λ calls. AreOffered calls.now.entries.items.items most rows.old.lists.items.items (IsListed offers.now.items.items key)) }
    ensures taken { TakesListed room most offers.now.items.items key rows.old.lists.items.items rows.new.lists.items.items result }
    ensures chosen { OnOk result (IfSome ties.entry (λ calls. IsChoice calls.now.entries.items.items room most (IsListed offers.now.items.items key) rows.old.lists.items.items rows.new.lists.items.items)) }
    ensures wide { length rows.new.lists.heads.items ≡ length rows.old.lists.heads.items }
{
    let mut number = offers.newest(key);
    'offers: while number > 0 {
        let offer = offers.item((number - 1) as usize);
        take(rows, ties, offer.value, room, most)?;
        number = offer.link;
    }
    Ok(())
}
