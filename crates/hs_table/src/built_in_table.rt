//! The built-in table.

ghost use Rattle.std.specs.Prelude.{◌≡◌, IfOk, map};
ghost use Rattle.hs_table.specs.Tables.{built_in_table};
ghost use Rattle.hs_table.specs.Rows.{routine_of};

use crate::{Role, Routine, Table};
use hs_base::{Bytes, NoMemory};
use std::alloc::Global;

/// A row of the built-in table: a routine's name and role, whether it may both move and purge memory or neither, and the
/// parameter that it fills.
struct Row(&'static str, Role, bool, u32);

/// The rows, in the order of the names.
const ROWS: [Row; 15] = [
    Row("DrawString", Role::Plain, true, 0),
    Row("GetNextEvent", Role::Plain, true, 2),
    Row("HGetState", Role::GetState, false, 0),
    Row("HLock", Role::Lock, false, 0),
    Row("HNoPurge", Role::NoPurge, false, 0),
    Row("HPurge", Role::Purge, false, 0),
    Row("HSetState", Role::SetState, false, 0),
    Row("HUnlock", Role::Unlock, false, 0),
    Row("InsetRect", Role::Plain, false, 0),
    Row("NewHandle", Role::NewHandle, true, 0),
    Row("TEKey", Role::Plain, true, 0),
    Row("TENew", Role::Plain, true, 0),
    Row("TEUpdate", Role::Plain, true, 0),
    Row("getchar", Role::Getchar, false, 0),
    Row("putchar", Role::Putchar, false, 0),
];

/// The routine of a row.
fn routine_of(alloc: Global, row: &Row) -> Result<Routine, NoMemory>
    ensures { IfOk result (λ routine. routine ≡ routine_of row.now) }
{
    let Row(name, role, shifts, fills) = row;
    Ok(Routine {
        name: Bytes::from_vec(name.as_bytes().to_vec(alloc)?),
        role: *role,
        moves: *shifts,
        purges: *shifts,
        fills: *fills,
        size: 0,
    })
}

/// The routines of the rows.
fn routines_of(alloc: Global, rows: &[Row]) -> Result<Vec<Routine>, NoMemory>
    ensures { IfOk result (λ routines. routines.items ≡ map routine_of rows.now) }
{
    let mut routines = Vec::new(alloc);
    'rows: for row in rows {
        routines.push(routine_of(alloc, row)?)?;
    }
    Ok(routines)
}

/// The built-in table, which is used until a table file is named.
///
/// Example: `NewHandle` is in it, and may move and purge memory. `SetRect` is not.
///
/// # Errors
///
/// If memory runs out.
#[tactic(auto, unfolding(crate::specs::Tables::built_in_table))]
pub fn built_in(alloc: Global) -> Result<Table, NoMemory>
    ensures { IfOk result (λ table. table ≡ built_in_table) }
{
    Ok(Table::from_vec(routines_of(alloc, &ROWS)?))
}
