//! What functions may do, themselves or in the functions that they call. `specs/Answers.antt` says what the table of effects answers; `hs_facts` has
//! the definitions.
#![tactic(auto)]

mod assignments;
mod callers;
mod closing;
mod op_effects;
mod own;
mod own_effects;
mod table;
mod work;

pub use assignments::{Assignments, assigned_under_calls};
pub use table::{EffectTable, effects_with_restores};
