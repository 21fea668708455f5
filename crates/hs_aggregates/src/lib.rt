//! How initialisers go through an object (X3.159-1989 3.5.7): its members and elements, in the order in which a list without inner
//! braces fills them, and which expressions are address constants (3.4). `specs/Aggregates.antt` and `specs/Addresses.antt` have the
//! definitions.
#![tactic(auto)]

mod addresses;
mod aggregates;
mod begun;
mod kinds;
mod walking;

pub use addresses::constant_in;
pub use aggregates::{Aggregate, Subobject, after, fresh, takes};
pub use begun::Begun;
pub use kinds::{array_length, text_kind};
pub use walking::{Destination, reached, whole};
