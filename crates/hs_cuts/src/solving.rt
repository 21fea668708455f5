//! Rows that are cut until each operation makes what those after it have.

ghost use Rattle.std.specs.Prelude.{◌≡◌, ◌<◌, ◌≤◌, ◌^◌, ℕ, suc, true, false, length, slice_get, Some, IfOk};
ghost use Rattle.hs_cuts.specs.Cuts.{IsSolved, IsStanding, Visit, Visited, Passed, the_task};
ghost use Rattle.hs_cuts.specs.Meeting.{Met, Flagged, SeenCases, target_in};
ghost use Rattle.hs_rows.specs.Sets.{has, width};

use crate::Maker;
use hs_base::NoMemory;
use hs_code::{FunctionCode, succ};
use hs_rows::Rows;
use std::alloc::Global;

/// How many operations there are.
fn ops_of(code: &FunctionCode) -> usize
    ensures is { result ≡ length code.now.ops }
    ensures few { result < 2 ^ 32 }
{
    code.ops.items().len()
}

/// The target of a case that is there.
fn case_target(code: &FunctionCode, place: u32) -> Option<u32>
    ensures { result ≡ target_in (slice_get code.now.cases place) }
{
    match code.cases.items().get(place as usize) {
        Some(case) => Some(case.target),
        None => None,
    }
}

/// Meets the row of an operation with the last row, and flags it if it changed.
fn meet_next(rows: &mut Rows, ops: usize, next: usize, flags: &mut [bool]) -> bool
    requires count { rows.old.count ≡ suc ops }
    requires flags { length flags.old ≡ ops }
    ensures met { (total : ℕ) → total ≤ width rows.old → Met total ops (has rows.old ops) (λ r. r ≡ next) rows.old rows.new }
    ensures flagged { (total : ℕ) → total ≤ width rows.old → Flagged total ops rows.old rows.new flags.old flags.new result }
{
    if next >= ops {
        return false;
    }
    if rows.meet(next, ops) {
        flags[next] = true;
        true
    } else {
        false
    }
}

/// The same for an operation that there may be.
fn meet_some(rows: &mut Rows, ops: usize, next: Option<u32>, flags: &mut [bool]) -> bool
    requires count { rows.old.count ≡ suc ops }
    requires flags { length flags.old ≡ ops }
    ensures met { (total : ℕ) → total ≤ width rows.old → Met total ops (has rows.old ops) (λ r. next ≡ Some r) rows.old rows.new }
    ensures flagged { (total : ℕ) → total ≤ width rows.old → Flagged total ops rows.old rows.new flags.old flags.new result }
{
    match next {
        Some(next) => meet_next(rows, ops, next as usize, flags),
        None => false,
    }
}

/// The same for the cases of a switch.
fn meet_cases(
    rows: &mut Rows,
    code: &FunctionCode,
    ops: usize,
    cases: (u32, u32),
    flags: &mut [bool],
) -> bool
    requires count { rows.old.count ≡ suc ops }
    requires flags { length flags.old ≡ ops }
    ensures met { (total : ℕ) → total ≤ width rows.old → Met total ops (has rows.old ops) (SeenCases code.now.cases cases.0 cases.1) rows.old rows.new }
    ensures flagged { (total : ℕ) → total ≤ width rows.old → Flagged total ops rows.old rows.new flags.old flags.new result }
{
    let (first, end) = cases;
    let mut changed = false;
    'cases: for place in first..end {
        let case = meet_some(rows, ops, case_target(code, place), flags);
        changed |= case;
    }
    changed
}

/// Cuts the rows after an operation, and flags those that changed.
fn visit<M: Maker>(
    rows: &mut Rows,
    code: &FunctionCode,
    maker: &M,
    at: usize,
    flags: &mut [bool],
) -> bool
    requires ops { M.ops maker.now ≡ length code.now.ops }
    requires count { rows.old.count ≡ suc (length code.now.ops) }
    requires room { M.total maker.now ≤ width rows.old }
    requires there { at < length code.now.ops }
    requires flags { length flags.old ≡ length code.now.ops }
    ensures { Visit (the_task (M.total maker.now) code.now (M.makes maker.now)) at rows.old rows.new flags.old flags.new result }
{
    let ops = ops_of(code);
    maker.make(rows, at, ops);
    let next = succ(code, at as u32);
    let one = meet_some(rows, ops, next.next, flags);
    let two = meet_some(rows, ops, next.jump, flags);
    let three = meet_cases(rows, code, ops, next.cases, flags);
    (one | two) | three
}

/// The same, if the operation is flagged.
fn visit_if<M: Maker>(
    rows: &mut Rows,
    code: &FunctionCode,
    maker: &M,
    at: usize,
    flags: &mut [bool],
) -> bool
    requires ops { M.ops maker.now ≡ length code.now.ops }
    requires count { rows.old.count ≡ suc (length code.now.ops) }
    requires room { M.total maker.now ≤ width rows.old }
    requires there { at < length code.now.ops }
    requires flags { length flags.old ≡ length code.now.ops }
    requires standing { IsStanding (the_task (M.total maker.now) code.now (M.makes maker.now)) flags.old rows.old }
    ensures { Visited (the_task (M.total maker.now) code.now (M.makes maker.now)) at rows.old rows.new flags.old flags.new result }
{
    if !flags[at] {
        return false;
    }
    flags[at] = false;
    visit(rows, code, maker, at, flags)
}

/// Visits each operation that is flagged, and answers whether a row changed.
fn pass<M: Maker>(rows: &mut Rows, code: &FunctionCode, maker: &M, flags: &mut [bool]) -> bool
    requires ops { M.ops maker.now ≡ length code.now.ops }
    requires count { rows.old.count ≡ suc (length code.now.ops) }
    requires room { M.total maker.now ≤ width rows.old }
    requires flags { length flags.old ≡ length code.now.ops }
    requires standing { IsStanding (the_task (M.total maker.now) code.now (M.makes maker.now)) flags.old rows.old }
    ensures { Passed (the_task (M.total maker.now) code.now (M.makes maker.now)) (length code.now.ops) rows.old rows.new flags.old flags.new result }
{
    let mut changed = false;
    'ops: for at in 0..ops_of(code) {
        let visited = visit_if(rows, code, maker, at, flags);
        changed |= visited;
    }
    changed
}

/// Rows with all bits, but none before the first operation, and one row more.
fn all_bits(alloc: Global, count: usize, ops: usize) -> Result<Rows, NoMemory>
    requires few { ops < 2 ^ 32 }
    ensures count { IfOk result (λ its. its.count ≡ suc ops) }
    ensures room { IfOk result (λ its. count ≤ width its) }
    ensures all { IfOk result (λ its. (r b : ℕ) → 0 < r → r < ops → b < count → has its r b ≡ true) }
    ensures none { IfOk result (λ its. (b : ℕ) → 0 < ops → b < count → has its 0 b ≡ false) }
{
    let mut rows = Rows::new(alloc, ops + 1, count)?;
    'bits: for bit in 0..count {
        let _new = rows.put(ops, bit);
    }
    'rows: for row in 1..ops {
        rows.copy_row(row, ops);
    }
    Ok(rows)
}

/// Finds the rows that agree with all operations and have the most bits: a row for each operation, and one more, which is left from the work. Before
/// the first operation there is no bit.
///
/// Example: if each operation makes the row that it gets, no row has a bit to which a way from the first operation leads, and all others have all.
///
/// # Errors
///
/// `NoMemory` if memory runs out.
pub fn solve<M: Maker>(
    alloc: Global,
    code: &FunctionCode,
    total: usize,
    maker: &M,
) -> Result<Rows, NoMemory>
    requires ops { M.ops maker.now ≡ length code.now.ops }
    requires total { M.total maker.now ≡ total }
    ensures count { IfOk result (λ its. its.count ≡ suc (length code.now.ops)) }
    ensures room { IfOk result (λ its. total ≤ width its) }
    ensures solved { IfOk result (IsSolved (the_task total code.now (M.makes maker.now))) }
{
    let ops = ops_of(code);
    let mut rows = all_bits(alloc, total, ops)?;
    let mut flags = Vec::from_elem(alloc, true, ops)?;
    // Each pass but the last takes a bit out, so there are not so many.
    'passes: for _ in 0..u64::MAX {
        if !pass(&mut rows, code, maker, flags.as_mut_slice()) {
            return Ok(rows);
        }
    }
    Err(NoMemory)
}
