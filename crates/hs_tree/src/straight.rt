//! A straight program: one `main` without branches, over the four routines that its prelude declares. This module goes
//! when whole programs are checked.

mod lists;
mod tree;

pub use lists::{Steps, Variables};
pub use tree::{Expr, Kind, Step, Straight, Variable};
