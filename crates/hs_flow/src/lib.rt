//! What flows: one step of one fact, and over, into and out of a call. `specs/Next.antt` says what an operation does to a fact, `specs/Calls.antt`
//! what a call does.
#![tactic(auto)]

mod around;
mod calls;
mod fact;
mod facts;
mod naming;
mod over;
mod putting;
mod restoring;
mod routine;
mod shift;
mod slots;
mod stack;
mod stepping;
mod through;

pub use around::Around;
pub use fact::{Fact, FactStatus, Slot};
pub use facts::Facts;
pub use over::over_call;
pub use stepping::next;
pub use through::{enter, leave};
