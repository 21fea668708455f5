//! Which of the chains of two rows comes first, by the links of rows. `specs/Judging.antt` says how it is told.

ghost use Rattle.std.specs.Prelude.{◌≡◌, ◌≢◌, ◌<◌, ◌≤◌, ◌⊎◌, ◌-◌, ℕ, length, true, false, IfSome, IfNone};
ghost use Rattle.std.specs.declared.cmp.Ordering.TheVariants.{Less, Equal, Greater};
ghost use Rattle.hs_search.specs.Deciding.{Decides};
ghost use Rattle.hs_search.specs.Judging.{Told, first_entry, inner_ends, link_of};
ghost use Rattle.hs_search.specs.Meeting.{AreLower, Follows, Hangs, Under};
ghost use Rattle.hs_search.specs.Orders.{IsAlike, IsBefore};
ghost use Rattle.hs_search.specs.Rivals.{IsOffered, IsReachAt, OfferLeads, RowLeads, with_offer};
ghost use Rattle.hs_search.specs.Storing.{AllKnown};

use crate::calls::Calls;
use crate::graph::Node;
use crate::lists::Lists;
use crate::reach::Reach;
use std::cmp::Ordering;

/// How a row follows the row before it.
#[derive(Clone, Copy)]
pub(crate) enum Link {
    /// By a step.
    Step,
    /// As the first row of its call.
    Entry,
    /// After a call that ended at that row.
    Return(u32),
}

/// The row at which two chains part, and the rows after it.
#[derive(Clone, Copy)]
pub(crate) struct Meeting {
    /// The last row that both chains go through, or 0 if there is none.
    pub at: u32,
    /// The row after it in the first chain.
    pub left: u32,
    /// The row after it in the second chain.
    pub right: u32,
}

/// How the row follows the row before it.
fn read_link(row: Reach) -> Link
    ensures { result ≡ link_of row }
{
    if row.origin.last > 0 {
        Link::Return(row.origin.last)
    } else if row.level > 0 {
        Link::Step
    } else {
        Link::Entry
    }
}

/// The row of that number, counted from 1. The offer is the last one, if there is one.
fn row_at(rows: &Lists<Reach>, offer: Option<Reach>, number: u32) -> Reach
    requires some { 0 < number }
    requires known { number ≤ length (with_offer rows.now.items.items offer) }
    ensures { IsReachAt (with_offer rows.now.items.items offer) (number - 1) result }
{
    let place = (number - 1) as usize;
    match offer {
        Some(offer) => {
            if place < rows.len() {
                rows.item(place).value
            } else {
                offer
            }
        }
        None => rows.item(place).value,
    }
}

/// The row before the one of that number.
fn up(rows: &Lists<Reach>, offer: Option<Reach>, number: u32) -> u32
    requires some { 0 < number }
    requires known { number ≤ length (with_offer rows.now.items.items offer) }
    ensures { Follows (with_offer rows.now.items.items offer) result number }
{
    row_at(rows, offer, number).origin.up
}

/// Where the chains of two rows part, unless one of the rows is in the chain of the other.
fn meet(rows: &Lists<Reach>, offer: Option<Reach>, p: u32, q: u32) -> Option<Meeting>
    requires p_within { p ≤ length (with_offer rows.now.items.items offer) }
    requires q_within { q ≤ length (with_offer rows.now.items.items offer) }
    requires lower { AreLower (with_offer rows.now.items.items offer) }
    ensures left { IfSome result (λ it. Hangs (with_offer rows.now.items.items offer) it.at it.left p) }
    ensures right { IfSome result (λ it. Hangs (with_offer rows.now.items.items offer) it.at it.right q) }
    ensures parted { IfSome result (λ it. it.left ≢ it.right) }
    ensures above { IfNone result (Under (with_offer rows.now.items.items offer) p q ⊎ Under (with_offer rows.now.items.items offer) q p) }
{
    let mut x = p;
    let mut y = q;
    let mut left = None;
    let mut right = None;
    'back: while x != y {
        if x > y {
            left = Some(x);
            x = up(rows, offer, x);
        } else {
            right = Some(y);
            y = up(rows, offer, y);
        }
    }
    let Some(left) = left else {
        return None;
    };
    let Some(right) = right else {
        return None;
    };
    Some(Meeting { at: x, left, right })
}

/// The ends inside a call that both chains go into, if one of them leaves it.
fn inner(left: Link, right: Link, p: u32, q: u32) -> Option<(u32, u32)>
    ensures { result ≡ inner_ends left right p q }
{
    match (left, right) {
        (Link::Entry, Link::Return(end)) => Some((p, end)),
        (Link::Return(end), Link::Entry) => Some((end, q)),
        (Link::Return(end), Link::Return(other)) => Some((end, other)),
        _ => None,
    }
}

/// The first entry that the row's link adds.
fn entry(rows: &Lists<Reach>, offer: Option<Reach>, calls: &Calls, row: Reach) -> Node
    requires own { row.call < length calls.now.entries.items.items }
    requires known { AllKnown (length calls.now.entries.items.items) (with_offer rows.now.items.items offer) }
    requires lower { row.origin.last ≤ length (with_offer rows.now.items.items offer) }
    ensures { result ≡ first_entry calls.now.entries.items.items (with_offer rows.now.items.items offer) row }
{
    if row.origin.last == 0 {
        return calls.node(row);
    }
    let end = row_at(rows, offer, row.origin.last);
    calls.first(end.call)
}

/// Which of two entries comes first.
fn compare(left: Node, right: Node) -> Ordering
    ensures less { result ≡ Less → IsBefore left right }
    ensures greater { result ≡ Greater → IsBefore right left }
    ensures equal { result ≡ Equal → IsAlike left right }
{
    if left.at < right.at {
        Ordering::Less
    } else if right.at < left.at {
        Ordering::Greater
    } else if left.fact < right.fact {
        Ordering::Less
    } else if right.fact < left.fact {
        Ordering::Greater
    } else {
        Ordering::Equal
    }
}

/// Which of the chains of two rows comes first. The offer counts as one. `Equal` tells nothing: one row is in the chain of the other, or the entries at which the chains part are
/// alike.
fn judge(rows: &Lists<Reach>, offer: Option<Reach>, calls: &Calls, p: u32, q: u32) -> Ordering
    requires p_within { p ≤ length (with_offer rows.now.items.items offer) }
    requires q_within { q ≤ length (with_offer rows.now.items.items offer) }
    requires lower { AreLower (with_offer rows.now.items.items offer) }
    requires known { AllKnown (length calls.now.entries.items.items) (with_offer rows.now.items.items offer) }
    ensures less { result ≡ Less → Told calls.now.entries.items.items (with_offer rows.now.items.items offer) p q }
    ensures greater { result ≡ Greater → Told calls.now.entries.items.items (with_offer rows.now.items.items offer) q p }
    ensures decided { Decides calls.now.entries.items.items (with_offer rows.now.items.items offer) p q → result ≢ Equal }
{
    let mut left_end = p;
    let mut right_end = q;
    'calls: while let Some(meeting) = meet(rows, offer, left_end, right_end) {
        let left = row_at(rows, offer, meeting.left);
        let right = row_at(rows, offer, meeting.right);
        let Some((inside, beside)) = inner(read_link(left), read_link(right), left_end, right_end)
        else {
            return compare(
                entry(rows, offer, calls, left),
                entry(rows, offer, calls, right),
            );
        };
        left_end = inside;
        right_end = beside;
    }
    Ordering::Equal
}

/// Whether the chain of an offer comes before that of the row of its node, which has as many entries.
pub(crate) fn precedes(rows: &Lists<Reach>, calls: &Calls, offer: Reach, number: usize) -> bool
    requires number { number < length rows.now.items.items }
    requires offered { IsOffered calls.now.entries.items.items rows.now.items.items offer }
    ensures first { result ≡ true → OfferLeads calls.now.entries.items.items rows.now.items.items offer number }
    ensures second { result ≡ false → RowLeads calls.now.entries.items.items rows.now.items.items offer number }
{
    let order = if offer.level == 0 {
        let row = rows.item(number).value;
        judge(rows, None, calls, offer.origin.up, row.origin.up)
    } else {
        judge(
            rows,
            Some(offer),
            calls,
            rows.len() as u32 + 1,
            number as u32 + 1,
        )
    };
    matches!(order, Ordering::Less)
}
