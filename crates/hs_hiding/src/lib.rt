//! Which blocks no variable and no cell has a handle of, and that no operation changes that: only an operation that has a handle of a block among its
//! operands, or finds one in a variable or a cell, can hand it on or dispose of the block. `specs/Holding.antt` has the definitions, `specs/Operations.antt`
//! and `specs/Disposing.antt` the laws of operations, and `specs/Calls.antt` those of calls. The crate is definitions and laws; its functions have no body.
#![tactic(auto)]

mod laws;

pub use laws::{
    a_call_begins_without_hidden_handles, no_operation_disposes_of_a_hidden_block,
    no_operation_hands_on_a_hidden_block,
};
