//! Where a switch goes.

ghost use Rattle.std.specs.Prelude.{◌≡◌, ◌-◌, take, drop};
ghost use Rattle.hs_code_run.specs.Steps.{case_for, found};

use hs_code::{Case, Goal};

/// The cases from one place up to another. Places that are not there have none.
fn between(cases: &[Case], first: usize, end: usize) -> &[Case]
    ensures { result.now ≡ take (end - first) (drop first cases.now) }
{
    let (_, rest) = cases.split_at(first.min(cases.len()));
    let (its, _) = rest.split_at(end.saturating_sub(first).min(rest.len()));
    its
}

/// Where the first case of that number goes, if there is one.
fn found(cases: &[Case], bits: u32) -> Option<u32>
    ensures { result ≡ found bits cases.now }
{
    'cases: for its in cases {
        if its.bits == bits {
            return Some(its.target);
        }
    }
    None
}

/// The operation at which a switch goes on (X3.159-1989 3.6.4.2): that of the first case of the number, or else that of the default.
pub(crate) fn case_for(bits: u32, goal: Goal, cases: &[Case]) -> u32
    ensures { result ≡ case_for bits goal cases.now }
{
    match found(between(cases, goal.first as usize, goal.end as usize), bits) {
        Some(target) => target,
        None => goal.default,
    }
}
