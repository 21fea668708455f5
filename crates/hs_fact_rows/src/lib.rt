//! Must facts by rows of bits, one row for each operation of a function. `specs/Cells.antt` numbers the facts, and `specs/Given.antt` says what
//! each operation gives.
#![tactic(auto)]

mod callees;
mod fields;
mod giving;
mod plan;
mod solving;
mod step;
mod steps;

pub use callees::{Callees, is_gone};
pub use fields::{clear, field, write};
pub use giving::{saved_at, saved_in, shares, with_at};
pub use plan::Plan;
pub use solving::{Job, solve};
pub use step::Step;
pub use steps::{Lists, one};
