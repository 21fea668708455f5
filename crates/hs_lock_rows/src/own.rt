//! That a name is apart from itself says nothing.

ghost use Rattle.std.specs.Prelude.{◌<◌, ℕ};
ghost use Rattle.hs_lock_rows.specs.Knowing.{HasRoom};
ghost use Rattle.hs_lock_rows.specs.Own.{Cleared, ClearedTo};

use crate::Field;
use crate::layout::first;
use hs_fact_rows::Plan;
use hs_rows::Rows;

/// Takes out of so many rows that a name is apart from itself.
///
/// Example: in the row of a function with two names, the numbers 4 and 7.
pub fn clear_own(rows: &mut Rows, plan: Plan, count: usize)
    requires room { (row : ℕ) → row < count → HasRoom plan rows.old row }
    ensures { Cleared plan count rows.old rows.new }
{
    'rows: for row in 0..count {
        clear_row(rows, plan, row);
    }
}

/// Takes it out of one row.
fn clear_row(rows: &mut Rows, plan: Plan, row: usize)
    requires room { HasRoom plan rows.old row }
    ensures { ClearedTo plan row plan.names rows.old rows.new }
{
    'names: for name in 0..plan.names {
        rows.drop_bit(row, first(plan, Field::Apart(name)) + name);
    }
}
