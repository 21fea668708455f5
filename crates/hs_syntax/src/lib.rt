//! The syntax of C as it is read here (X3.159-1989 3.3 and 3.5 to 3.7): trees of units. `specs/Grammar.antt` has the grammar,
//! which relates trees and tokens.
#![tactic(auto)]

mod decl;
mod deepener;
mod expr;
mod held;
mod laws;
mod level;
mod nesting;
mod operators;
mod positions;
mod stmt;
mod unit;
mod word;

pub use decl::{Decl, Initialiser, Item};
pub use expr::{Constant, Declarator, Direct, Expr, Left, Member, Parameter, Specifier, TypeName};
pub use held::{boxed_three, boxed_two, with};
pub use laws::{
    binary_operators_group_to_the_left, else_belongs_to_the_nearest_if, first_tokens_are_first,
    specifiers_take_what_they_can, typedef_names_begin_parameter_lists,
};
pub use nesting::shallow;
pub use operators::{
    Access, AssignOperator, Basic, BinaryOperator, Dropped, Pointer, PostfixOperator,
    PrefixOperator, Storage,
};
pub use positions::first_of_specifiers;
pub use stmt::{Block, Label, Labelled, Stmt};
pub use unit::{External, Unit};
pub use word::Word;
