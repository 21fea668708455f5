//! Laws of typed programs, proved and without code: what expressions, declarations, statements and functions keep, so that their program keeps
//! what `hs_tree/specs/Fitting.antt` says.
#![tactic(auto)]

mod laws;

pub use laws::{
    bodies_extend_what_is_known, declarations_extend_what_is_known, functions_have_their_names,
    what_is_defined_fits, what_is_stated_stands,
};
