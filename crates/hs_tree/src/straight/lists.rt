//! The variables and the steps of a straight program, as lists.

ghost use Rattle.std.specs.Prelude.{◌≡◌};

use crate::straight::{Step, Variable};
use std::marker::Model;

/// The declared variables of a straight program, in the order of the text. Contracts see the list.
#[derive(Drop)]
pub struct Variables {
    vec: Vec<Variable>,
}

impl Model for Variables {
    ghost use Rattle.std.specs.Prelude.{List};
    ghost use Rattle.hs_tree.specs.declared.straight.tree.Variable.{Variable};

    ghost Value = { List Variable };

    ghost view = { λ v. v.vec.items };
}

impl Variables {
    /// The list of these items. Takes no memory.
    pub fn from_vec(items: Vec<Variable>) -> Variables
        ensures { result ≡ items.items }
    {
        Variables { vec: items }
    }

    /// Lends the items.
    pub fn items(&self) -> &[Variable]
        ensures { result.now ≡ self.now }
    {
        self.vec.as_slice()
    }
}

/// The steps of a straight program, in the order of the text. Contracts see the list.
#[derive(Drop)]
pub struct Steps {
    vec: Vec<Step>,
}

impl Model for Steps {
    ghost use Rattle.std.specs.Prelude.{List};
    ghost use Rattle.hs_tree.specs.declared.straight.tree.Step.{Step};

    ghost Value = { List Step };

    ghost view = { λ s. s.vec.items };
}

impl Steps {
    /// The list of these items. Takes no memory.
    pub fn from_vec(items: Vec<Step>) -> Steps
        ensures { result ≡ items.items }
    {
        Steps { vec: items }
    }

    /// Lends the items.
    pub fn items(&self) -> &[Step]
        ensures { result.now ≡ self.now }
    {
        self.vec.as_slice()
    }
}
