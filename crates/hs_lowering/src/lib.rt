//! The code of typed programs: `specs/Lowering.antt` says what each form of an expression becomes, and `specs/Statements.antt` what statements and
//! functions do. The laws say that a run of this code is the meaning of the program. The crate is definitions and laws; its functions have no body.
#![tactic(auto)]

mod laws;

pub use laws::{
    code_of_expressions_is_exact, code_of_programs_is_code, code_of_programs_is_exact,
    code_of_programs_is_in_range, expressions_jump_inside, expressions_keep_their_positions,
    expressions_leave_one_value, expressions_name_what_is_there, programs_name_what_is_there,
};
