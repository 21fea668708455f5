//! The trees of programs: typed programs, and still the tree of a straight program. `specs/Trees.antt` has what contracts see of a
//! typed program, and `specs/Fitting.antt` what each one keeps.
#![tactic(auto)]

mod class;
mod constant;
mod function;
mod globals;
mod head;
mod operators;
mod program;
mod representatives;
mod statement;
pub mod straight;
mod taken;
mod value;

pub use class::Class;
pub use constant::{Base, Constant, Part, Parts};
pub use function::{BoundRoutine, Function, Prototype, Routines, TypeIds, Variables};
pub use globals::{Global, Globals, Literals};
pub use head::{Head, Variable, VariableDecl};
pub use operators::{Arithmetic, Comparison, Stride, Unary};
pub use program::Program;
pub use representatives::Representatives;
pub use statement::{Block, Declaration, Initial, Initialised, Label, Labelled, Statement};
pub use taken::TakenFields;
pub use value::{Lvalue, Rvalue};
