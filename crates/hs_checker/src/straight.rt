//! The straight checker: the reader of straight programs, and the count of their stale uses. This module goes when whole
//! programs are checked.

mod declarations;
mod ends;
mod exprs;
mod marks;
mod names;
mod numbers;
mod reader;
mod stale_uses;
mod steps;

pub use reader::read;
pub use stale_uses::check;
