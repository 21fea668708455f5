//! The values of constants and of string literals, and of the constant expressions that conditions are (X3.159-1989
//! 3.1.3, 3.1.4, 3.4 and 3.8.1).
#![tactic(auto)]

mod arithmetic;
mod characters;
mod condition;
mod constant;
mod digits;
mod number;
mod operator;
mod strings;
mod value;
mod waiting;

pub use arithmetic::{binary_value, chosen, unary_value};
pub use characters::character_value;
pub use condition::condition_value;
pub use number::{Number, number_value};
pub use operator::{Binary, Unary};
pub use strings::{has_string_value, string_value};
pub use value::Value;
