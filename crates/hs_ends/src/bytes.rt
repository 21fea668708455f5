//! How many bytes the objects and the strings of a program have.

ghost use Rattle.std.specs.Prelude.{◌≡◌, ◌≤◌, ◌<◌, ◌+◌, IfSome, IfNone};
ghost use Rattle.hs_ends.specs.Ends.{bytes_of_globals, bytes_of_literals, passes};

use hs_base::Bytes;
use hs_tree::Global;

/// The limit Objects.
const MOST: u64 = 16_777_216;

/// The sum, or `None` if it passes the limit.
fn sum(total: u64, more: u64) -> Option<u64>
    ensures some { IfSome result (λ sum. sum ≡ total + more) }
    ensures within { IfSome result (λ sum. sum ≤ 16777216) }
    ensures none { IfNone result (16777216 < total + more) }
{
    let sum = total.saturating_add(more);
    if sum > MOST { None } else { Some(sum) }
}

/// The bytes of the objects, or `None` if they pass the limit.
fn bytes_of_globals(its: &[Global]) -> Option<u64>
    ensures some { IfSome result (λ total. total ≡ bytes_of_globals its.now) }
    ensures within { IfSome result (λ total. total ≤ 16777216) }
    ensures none { IfNone result (16777216 < bytes_of_globals its.now) }
{
    let mut total = 0u64;
    let mut rest = its;
    'rest: while let Some((it, others)) = rest.split_first() {
        total = sum(total, it.size as u64)?;
        rest = others;
    }
    Some(total)
}

/// So many bytes, which do not pass the limit, and those of the strings, or `None` if all of them pass it.
fn bytes_with_literals(start: u64, its: &[Bytes]) -> Option<u64>
    ensures some { IfSome result (λ total. total ≡ start + bytes_of_literals its.now) }
    ensures within { start ≤ 16777216 → IfSome result (λ total. total ≤ 16777216) }
    ensures none { IfNone result (16777216 < start + bytes_of_literals its.now) }
{
    let mut total = start;
    let mut rest = its;
    'rest: while let Some((it, others)) = rest.split_first() {
        total = sum(total, it.items().len() as u64)?;
        rest = others;
    }
    Some(total)
}

/// Whether the objects and the strings have more bytes than a program may have.
///
/// Example: `false` if there are no objects and no strings.
pub fn passes(globals: &[Global], literals: &[Bytes]) -> bool
    ensures { result ≡ passes globals.now literals.now }
{
    match bytes_of_globals(globals) {
        Some(start) => bytes_with_literals(start, literals).is_none(),
        None => true,
    }
}
