//! The values of the running machine, and what is done with them alone: numbers, pointers, and the cells that hold them in memory.
//! `hs_meaning` has the definitions; `specs/Answers.antt` says how a call answers.
#![tactic(auto)]

mod cells;
mod halt;
mod loads;
mod numbers;
mod parcel;
mod pointers;
mod value;

pub use cells::Cells;
pub use halt::Halt;
pub use loads::{loaded, loaded_number};
pub use numbers::{arithmetic, compared, signed};
pub use parcel::{Parcel, byte_of};
pub use pointers::{answered, are_apart, difference, moved, stride_bytes};
pub use value::Value;
