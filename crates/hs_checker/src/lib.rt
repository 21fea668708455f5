//! The verdict on a program. So far the programs are straight ones.
#![tactic(auto)]

mod source;
pub mod straight;

pub use source::straight_of;
pub use straight::check;
