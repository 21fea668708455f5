//! The code of a program.

ghost use Rattle.hs_code.specs.Codes.{IsCode, view_program};

use crate::FunctionCode;
use hs_tree::{Class, Program};

/// The code of a typed program, over the types, variables, strings and routines of the program. It keeps in its type that all that an
/// operation names is there (what has its address taken is an object, what is read or set is a slot, and a pointer is of one of the classes),
/// and that each operation which control reaches has its operands and notes how many values are on the stack.
#[derive(Drop)]
pub struct Code<'a> {
    pub program: &'a Program,
    /// The classes of pointers that the operations name by their places.
    pub classes: Vec<Class>,
    /// The code of each function of the program, in their order.
    pub functions: Vec<FunctionCode>,
    pub ghost whole: { ∥ IsCode (view_program program.now) classes.items functions.items ∥₁ },
}
