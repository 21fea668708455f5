//! Lowering of typed expressions: emits the operations that `hs_lowering` defines for each form. `specs/Emits.antt` says what the answers
//! mean. `specs/Emitting.antt` has the same code in steps, one for each call of the functions here.
#![tactic(auto)]

mod classes;
mod context;
mod emit_end;
mod expressions;
mod ops;
mod parts;

pub use classes::Classes;
pub use context::Context;
pub use emit_end::EmitEnd;
pub use expressions::{address, expression};
pub use ops::{Exits, Ops};
