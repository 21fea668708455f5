//! Operands: what an expression is before it is used.

ghost use Rattle.std.specs.Prelude.{◌≡◌};
ghost use Rattle.hs_operand_types.specs.Operands.{view_operand, head_of_operand};

use hs_base::Bytes;
use hs_tree::{Head, Lvalue, Rvalue};

/// What a call of a function is bound to.
#[derive(Clone, Copy, PartialEq, Eq)]
pub enum Bound {
    /// A function that is defined, by its place among the functions of the program.
    Function(u32),
    /// A routine, by its place in the table.
    Routine(u32),
    /// No function is defined under the name, and no routine has it.
    Nothing,
}

/// A function that an expression designates (X3.159-1989 3.2.2.1): the place of its name and its type, its name, and what its calls
/// are bound to.
#[derive(Drop)]
pub struct Designator {
    pub head: Head,
    pub name: Bytes,
    pub bound: Bound,
}

/// What an expression is before it is used (3.2.2.1).
#[derive(Drop)]
pub enum Operand {
    /// A value, or nothing if its type is `void`.
    Value(Box<Rvalue>),
    /// An object.
    Object(Box<Lvalue>),
    /// A function, which can only be called (own).
    Function(Designator),
}

impl Operand {
    /// Its position and origin, and its type.
    pub fn head(&self) -> Head
        ensures { result ≡ head_of_operand (view_operand self.now) }
    {
        match self {
            Operand::Value(e) => e.head(),
            Operand::Object(object) => object.head(),
            Operand::Function(it) => it.head,
        }
    }
}
