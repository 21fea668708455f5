//! Functions, and the routines of the table.

ghost use Rattle.std.specs.Prelude.{◌≡◌};

use crate::{Block, VariableDecl};
use hs_base::Bytes;
use hs_table::Routine;
use hs_tokens::Place;
use hs_types::TypeId;
use std::marker::Model;

/// A function that is defined.
#[derive(Drop)]
pub struct Function {
    pub name: Bytes,
    /// The place of its name.
    pub at: Place,
    pub result: TypeId,
    /// How many of its variables are parameters: those at the front.
    pub parameters: u32,
    /// Its parameters and its automatic variables, in the order of the text.
    pub variables: Variables,
    pub body: Block,
}

/// The variables of a function. Contracts see the list.
#[derive(Drop)]
pub struct Variables {
    vec: Vec<VariableDecl>,
}

impl Model for Variables {
    ghost use Rattle.std.specs.Prelude.{List};
    ghost use Rattle.hs_tree.specs.declared.head.VariableDecl.{VariableDecl};

    ghost Value = { List VariableDecl };

    ghost view = { λ it. it.vec.items };
}

impl Variables {
    /// The list of these items. Takes no memory.
    pub fn from_vec(items: Vec<VariableDecl>) -> Variables
        ensures { result ≡ items.items }
    {
        Variables { vec: items }
    }

    /// Lends the items.
    pub fn items(&self) -> &[VariableDecl]
        ensures { result.now ≡ self.now }
    {
        self.vec.as_slice()
    }
}

/// The types of parameters. Contracts see the list.
#[derive(Drop)]
pub struct TypeIds {
    vec: Vec<TypeId>,
}

impl Model for TypeIds {
    ghost use Rattle.std.specs.Prelude.{List};
    ghost use Rattle.hs_types.specs.declared.row.TypeId.{TypeId};

    ghost Value = { List TypeId };

    ghost view = { λ it. it.vec.items };
}

impl TypeIds {
    /// The list of these items. Takes no memory.
    pub fn from_vec(items: Vec<TypeId>) -> TypeIds
        ensures { result ≡ items.items }
    {
        TypeIds { vec: items }
    }

    /// Lends the items.
    pub fn items(&self) -> &[TypeId]
        ensures { result.now ≡ self.now }
    {
        self.vec.as_slice()
    }
}

/// The result and the parameters with which a routine is declared.
#[derive(Drop)]
pub struct Prototype {
    pub result: TypeId,
    pub parameters: TypeIds,
}

/// A routine of the table, and its declaration if the program calls it.
#[derive(Drop)]
pub struct BoundRoutine {
    pub routine: Routine,
    pub prototype: Option<Prototype>,
}

/// The routines of the table, in its order. The first has number 0. Contracts see the list.
#[derive(Drop)]
pub struct Routines {
    vec: Vec<BoundRoutine>,
}

impl Model for Routines {
    ghost use Rattle.std.specs.Prelude.{List};
    ghost use Rattle.hs_tree.specs.declared.function.BoundRoutine.{BoundRoutine};

    ghost Value = { List BoundRoutine };

    ghost view = { λ it. it.vec.items };
}

impl Routines {
    /// The list of these items. Takes no memory.
    pub fn from_vec(items: Vec<BoundRoutine>) -> Routines
        ensures { result ≡ items.items }
    {
        Routines { vec: items }
    }

    /// Lends the items.
    pub fn items(&self) -> &[BoundRoutine]
        ensures { result.now ≡ self.now }
    {
        self.vec.as_slice()
    }
}
