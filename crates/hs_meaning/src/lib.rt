//! What a program means: the reference machine's values, the run of a program on the heap of `hs_heap`, and when a program is safe. `specs/` has
//! the definitions; the code is the words that they share with the crates above.
#![tactic(auto)]

mod input;
mod input_text;
mod laws;
mod outcome;
pub mod straight;

pub use input::{Input, Words};
pub use input_text::{InputError, read_input};
pub use laws::{
    a_run_stays_with_more_turns, handles_are_read_as_pointers_alone, only_what_may_move_is_moved,
    programs_without_movers_are_safe, still_runs_are_no_misuse, still_schedules_are_one,
    turns_are_enough_fuel,
};
pub use outcome::{Outcome, Stop};
