//! Rows in the order of their operations.

ghost use Rattle.std.specs.Prelude.{◌≡◌, ◌<◌, ◌≤◌, ◌++◌, length, suc, IfOk, OnOk};
ghost use Rattle.hs_search.specs.Sorting.{AreParts, newest};

use crate::lists::Lists;
use crate::reach::Reach;
use hs_base::NoMemory;
use std::alloc::Global;

/// The numbers of rows, one operation after the other.
#[derive(Drop)]
pub(crate) struct Sorted {
    /// The numbers, of each operation the newest first.
    pub order: Vec<u32>,
    /// Where those of each operation start, and those of the next one.
    pub starts: Vec<usize>,
}

/// Puts the numbers of an operation's rows after those that are in the list, the newest first.
fn gather(rows: &Lists<Reach>, at: u32, order: &mut Vec<u32>) -> Result<(), NoMemory>
    requires known { at < length rows.now.heads.items }
    ensures { OnOk result (order.new.items ≡ order.old.items ++ newest at rows.now.items.items) }
{
    let mut number = rows.last(at);
    'rows: while number > 0 {
        order.push(number - 1)?;
        number = rows.item((number - 1) as usize).link;
    }
    Ok(())
}

/// Sorts rows by operation.
pub(crate) fn sort(alloc: Global, rows: &Lists<Reach>, count: u32) -> Result<Sorted, NoMemory>
    requires count { count ≡ length rows.now.heads.items }
    ensures parts { IfOk result (λ it. AreParts count rows.now.items.items it.order.items it.starts.items) }
    ensures long { IfOk result (λ it. length it.starts.items ≡ suc count) }
{
    let mut order = Vec::new(alloc);
    let mut starts = Vec::new(alloc);
    starts.push(0)?;
    for at in 0..count {
        gather(rows, at, &mut order)?;
        starts.push(order.len())?;
    }
    Ok(Sorted { order, starts })
}
