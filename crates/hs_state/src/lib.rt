//! The machine between two operations, and the operations on variables and memory. `hs_meaning` has the definitions; `specs/Machines.antt` says
//! how the machine here is the one of the definitions.
#![tactic(auto)]

mod accesses;
mod binding;
mod machine;
mod pointers;
mod refusals;
mod setting;
mod variables;

pub use accesses::stop_of;
pub use binding::Binding;
pub use machine::Machine;
pub use refusals::Refusals;
pub use setting::Setting;
