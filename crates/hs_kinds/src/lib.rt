//! Of which kinds the values along a run of code are: numbers, pointers and structs. `specs/Points.antt` says what holds at each point of a run,
//! `specs/Steps.antt` that a step keeps it, `specs/Starts.antt` that a run of the code of a typed program begins so, and `specs/Suits.antt` that each
//! operation then finds what it asks for. `specs/Progress.antt` and `RoleProgress.antt` say which stops are left.
//! The crate is definitions and laws; its functions have no body.
#![tactic(auto)]

mod laws;

pub use laws::{
    a_role_stops_for_no_argument_of_another_sort, a_run_begins_with_values_of_their_kinds,
    a_step_keeps_the_kinds_of_values, a_store_stops_for_no_value_of_another_sort,
    an_operation_finds_what_it_asks_for, an_operation_stops_for_no_operand_of_another_sort,
    typed_code_keeps_what_a_step_asks_for,
};
