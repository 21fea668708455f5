//! A routine of the table.

use crate::Role;
use hs_base::Bytes;

/// A routine, and what a call of it may do.
#[derive(Drop)]
pub struct Routine {
    pub name: Bytes,
    pub role: Role,
    /// A call may move memory.
    pub moves: bool,
    /// A call may purge memory. One that may purge may also move.
    pub purges: bool,
    /// The number, from 1, of the parameter whose target a plain routine fills, or 0 if it fills none.
    pub fills: u32,
    /// The size in bytes of what a plain routine makes as its result, or 0 if the table does not say.
    pub size: u32,
}
