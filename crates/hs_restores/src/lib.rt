//! The effects of the functions of a program, from its code alone: its restores are found first. `specs/Marks.antt` says which variables are numbered,
//! `specs/Stepping.antt` which steps operations are, and `specs/Restoring.antt` what is noted.
#![tactic(auto)]

mod assigning;
mod finding;
mod marks;
mod names;
mod noting;
mod numbers;
mod plan;
mod slots;
mod stepping;
mod taking;
mod whole;

pub use assigning::Assigning;
pub use finding::{Own, WindowRows, window_rows};
pub use marks::points_to_pointer;
pub use names::names_of;
pub use numbers::Numbers;
pub use slots::slots_of;
pub use taking::{role_at, taken};
pub use whole::effects;
