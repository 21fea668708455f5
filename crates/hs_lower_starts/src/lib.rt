//! Lowering of first values: emits the operations that give an automatic variable its first value, as `hs_lowering` defines them.
//! `specs/FirstValues.antt` says what they are, and `specs/Steps.antt` has them in steps, one for each function here.
#![tactic(auto)]

mod access;
mod constants;
mod items;
mod key;
mod part_index;
mod parts;
mod puts;

pub use items::first_value;
