//! What routines do that have a role of their own (Inside Macintosh: Memory, narrowed). `hs_meaning` has the definitions, in `specs/Roles.antt`.
#![tactic(auto)]

mod allocations;
mod change;
mod characters;
mod handles;
mod moves;
mod objects;
mod reshape;
mod roles;

pub use roles::act;
