//! What a function is lowered in.

ghost use Rattle.std.specs.Prelude.{◌≡◌};
ghost use Rattle.hs_lower_expressions.specs.Contexts.{setting_in};
ghost use Rattle.hs_lower.specs.Places.{setting_here};

use hs_lower_expressions::{Classes, Context};
use hs_tree::{Function, Program};

/// The function that is lowered, its program, and the classes of pointers of the program.
#[derive(Clone, Copy)]
pub(crate) struct Lowering<'a> {
    pub program: &'a Program,
    pub classes: &'a Classes,
    pub function: &'a Function,
}

impl<'a> Lowering<'a> {
    /// For an expression that stands in that piece of text.
    #[tactic(auto, unfolding(crate::specs::Places::setting_with, hs_lower_expressions::specs::Contexts::setting_in))]
    pub(crate) fn context(&self, piece: u32) -> Context<'a>
        ensures setting { setting_in result ≡ setting_here self.now }
        ensures variables { result.variables.now ≡ self.now.function.now.variables }
        ensures piece { result.piece ≡ piece }
    {
        Context {
            types: &self.program.types,
            globals: &self.program.globals,
            literals: &self.program.literals,
            routines: &self.program.routines,
            same: &self.program.same,
            taken: &self.program.taken,
            classes: self.classes,
            variables: &self.function.variables,
            piece,
        }
    }
}
