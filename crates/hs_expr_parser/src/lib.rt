//! Parsing of expressions (X3.159-1989 3.3), with what they hold of declarations (3.5). `specs/Reading.antt` has a rule for each
//! phrase, and the laws here relate the reading to the grammar, both ways.
#![tactic(auto)]

mod ahead;
mod conditionals;
mod declarators;
mod expressions;
mod laws;
mod longest;
mod named;
mod operators;
mod parse_end;
mod phrases;
mod postfixes;
mod rank;
mod type_names;
mod types;
mod unaries;
mod words;

pub use ahead::{
    begins_specifiers, first, is_keyword, is_mark_ahead, is_punctuator, mark, mark_ahead, place_of,
};
pub use expressions::{assignment, conditional, expression};
pub use laws::{
    expressions_are_unambiguous, nothing_is_read_where_none_starts, reading_is_the_longest,
    what_is_read_is_an_expression,
};
pub use longest::expr;
pub use parse_end::ParseEnd;
pub use phrases::{declarator, specifiers};
pub use type_names::TypeNames;
