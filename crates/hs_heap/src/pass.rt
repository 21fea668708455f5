//! The passes of a shift: blocks are purged first, and those that are left are moved. A pass over all blocks visits a list that has each block that
//! is not disposed.

ghost use Rattle.std.specs.Prelude.{◌≡◌, ◌≤◌, ◌<◌, ℕ, true, length, get_or, IfSome};
ghost use Rattle.hs_heap.specs.Memory.{IsListed};
ghost use Rattle.hs_heap.specs.Passes.{purged, relocated, with_each, place_of, changed_at, marked_by, moved_at, is_remaining, listed_for};
ghost use Rattle.hs_heap.specs.declared.decision.Which.TheVariants.{These};

use crate::decision::{Decision, Which};
use crate::row::Row;

/// Where the row of that number is among so many.
fn place_of(number: u32, made: usize) -> Option<usize>
    ensures place { result ≡ place_of number made }
    ensures inside { IfSome result (λ place. place < made) }
{
    if number < 1 || number as usize > made {
        return None;
    }
    Some(number as usize - 1)
}

/// Whether there is a block of that number that is not disposed.
fn is_remaining(rows: &[Row], number: u32) -> bool
    ensures { result ≡ is_remaining rows.now number }
{
    match place_of(number, rows.len()) {
        Some(place) => !rows[place].is_disposed(),
        None => false,
    }
}

/// Takes the numbers of disposed blocks out of the list, if the decision names all blocks.
pub(crate) fn drop_disposed(listed: &mut Vec<u32>, rows: &[Row], d: &Decision)
    ensures { listed.new.items ≡ listed_for d.now rows.now listed.old.items }
{
    if d.names_all() {
        listed.retain(|number| is_remaining(rows, *number));
    }
}

/// Purges the block of that number, if there is one.
fn purge_at(rows: &mut Vec<Row>, number: u32)
    ensures { rows.new.items ≡ changed_at purged number rows.old.items }
{
    if let Some(place) = place_of(number, rows.len()) {
        rows[place].purge();
    }
}

/// Purges the blocks of these numbers.
fn purge_these(rows: &mut Vec<Row>, numbers: &[u32])
    ensures { rows.new.items ≡ with_each true (These numbers.now) purged rows.old.items }
{
    for number in numbers {
        purge_at(rows, *number);
    }
}

/// Purges the blocks that are named, if the routine purges. The list stands for all blocks.
pub(crate) fn purge(rows: &mut Vec<Row>, purges: bool, which: &Which, listed: &[u32])
    requires listed { IsListed rows.old.items listed.now }
    ensures { rows.new.items ≡ with_each purges which.now purged rows.old.items }
{
    if purges {
        match which {
            Which::All => purge_these(rows, listed),
            Which::These(numbers) => purge_these(rows, numbers.items()),
        }
    }
}

/// Moves the block of that number, if there is one, unless this shift has done so.
fn relocate_at(rows: &mut Vec<Row>, marks: &mut Vec<u32>, number: u32, shift: u32)
    requires long { length rows.old.items ≤ length marks.old.items }
    ensures rows { rows.new.items ≡ moved_at shift marks.old.items number rows.old.items }
    ensures marks { marks.new.items ≡ marked_by shift number rows.old.items marks.old.items }
{
    if let Some(place) = place_of(number, rows.len()) {
        if marks[place] != shift {
            marks[place] = shift;
            rows[place].relocate();
        }
    }
}

/// Moves the blocks of these numbers. A block that is named again has the mark of this shift.
fn relocate_these(rows: &mut Vec<Row>, marks: &mut Vec<u32>, numbers: &[u32], shift: u32)
    requires long { length rows.old.items ≤ length marks.old.items }
    requires unmarked { (place : ℕ) → get_or marks.old.items place 0 < shift }
    ensures rows { rows.new.items ≡ with_each true (These numbers.now) relocated rows.old.items }
    ensures long { length rows.new.items ≤ length marks.new.items }
    ensures marks { (place : ℕ) → get_or marks.new.items place 0 ≤ shift }
{
    for number in numbers {
        relocate_at(rows, marks, *number, shift);
    }
}

/// Moves the blocks that are named, if the routine moves or purges. The list stands for all blocks. The shift has that number.
pub(crate) fn relocate(
    rows: &mut Vec<Row>,
    marks: &mut Vec<u32>,
    moves: bool,
    which: &Which,
    listed: &[u32],
    shift: u32,
)
    requires listed { IsListed rows.old.items listed.now }
    requires long { length rows.old.items ≤ length marks.old.items }
    requires unmarked { (place : ℕ) → get_or marks.old.items place 0 < shift }
    ensures rows { rows.new.items ≡ with_each moves which.now relocated rows.old.items }
    ensures long { length rows.new.items ≤ length marks.new.items }
    ensures marks { (place : ℕ) → get_or marks.new.items place 0 ≤ shift }
{
    if moves {
        match which {
            Which::All => relocate_these(rows, marks, listed, shift),
            Which::These(numbers) => relocate_these(rows, marks, numbers.items(), shift),
        }
    }
}
