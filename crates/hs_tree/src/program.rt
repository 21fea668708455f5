//! Typed programs.

ghost use Rattle.std.specs.Prelude.{◌≡◌, Some, slice_get, option_copied};
ghost use Rattle.hs_tree.specs.Fitting.{Fits};
ghost use Rattle.hs_tree.specs.Views.{program_of};

use crate::{Function, Globals, Literals, Representatives, Routines, TakenFields};
use hs_types::Types;

/// A typed program: every conversion is explicit, each member access names its field, and each call is bound to a function or to a
/// routine. It keeps in its type what `specs/Fitting.antt` lists.
#[derive(Drop)]
pub struct Program {
    /// Its types, each once.
    pub types: Types,
    pub globals: Globals,
    pub literals: Literals,
    /// The functions that are defined, in the order of the text.
    pub functions: Vec<Function>,
    pub routines: Routines,
    /// Which of its types are one.
    pub same: Representatives,
    /// The fields whose addresses the program takes, each by the one that stands for it.
    pub taken: TakenFields,
    /// The number of the function `main`.
    pub main: u32,
    pub ghost fits: { ∥ Fits (program_of types globals literals functions.items routines same taken main) ∥₁ },
}

impl Program {
    ghost use Rattle.hs_tree.specs.Fitting.{IsMain};
    ghost use Rattle.hs_tree.specs.Views.{view_function};

    /// The function `main`, which each program has.
    pub fn main_function(&self) -> &Function
        ensures place { slice_get self.now.functions.items self.now.main ≡ Some result.now }
        ensures is_main { IsMain self.now.types (view_function result.now) }
    {
        match self.function(self.main) {
            Some(function) => function,
            None => unreachable!(),
        }
    }

    /// The function of that number, if there is one.
    fn function(&self, number: u32) -> Option<&Function>
        ensures { option_copied result ≡ slice_get self.now.functions.items number }
    {
        self.functions.get(number as usize)
    }
}
