//! What each expression starts with, and variables.

ghost use Rattle.std.specs.Prelude.{◌≡◌};
ghost use Rattle.hs_tree.specs.Classes.{is_slot};

use hs_base::Bytes;
use hs_tokens::Place;
use hs_types::{Row, TypeId, Types};

/// What each expression starts with: its position and origin, and its type.
#[derive(Clone, Copy)]
pub struct Head {
    pub at: Place,
    /// Its type.
    pub type_id: TypeId,
}

/// Names a variable.
#[derive(Clone, Copy, Debug, PartialEq, Eq)]
pub enum Variable {
    /// A file-scope object or a static local: its place among those of the program.
    Global(u32),
    /// A parameter or another local: its place among those of its function, the parameters first.
    Local(u32),
}

/// A declared variable.
#[derive(Drop)]
pub struct VariableDecl {
    pub name: Bytes,
    /// The place of its name where it was declared first.
    pub at: Place,
    /// Its type.
    pub type_id: TypeId,
    /// Whether the program takes its address somewhere.
    pub taken: bool,
}

impl VariableDecl {
    /// Whether the variable is a slot: a number or a pointer whose address is never taken (own). Any other variable is an object of
    /// bytes.
    pub fn is_slot(&self, types: &Types) -> bool
        ensures { result ≡ is_slot types.now self.now }
    {
        match types.row(self.type_id) {
            Some(Row::Integer(_) | Row::Pointer(_) | Row::Enumeration(_)) => !self.taken,
            Some(
                Row::Void
                | Row::Struct(_)
                | Row::Array { .. }
                | Row::OpenArray(_)
                | Row::Function { .. },
            )
            | None => false,
        }
    }
}
