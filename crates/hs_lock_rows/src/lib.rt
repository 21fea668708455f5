//! Locks and what goes with them, by rows of bits, one row for each operation of a function. `specs/Layout.antt` numbers the facts, and
//! `specs/Given.antt` says what each operation gives.
#![tactic(auto)]

mod change;
mod coming;
mod field;
mod knowing;
mod layout;
mod making;
mod own;
mod solving;
mod staying;
mod words;

pub use change::Change;
pub use field::Field;
pub use layout::{fits, has_name};
pub use own::clear_own;
pub use solving::{LockJob, solve_locks};
pub use words::has_bit;
