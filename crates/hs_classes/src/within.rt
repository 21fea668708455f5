//! Where a part of a program is.

ghost use Rattle.std.specs.Prelude.{◌≡◌, option_copied, slice_get, take};
ghost use Rattle.hs_meaning.specs.Classes.{in_slot};
ghost use Rattle.hs_tree.specs.Fitting.{declared};
ghost use Rattle.hs_tree.specs.Views.{view_left};
ghost use Rattle.hs_classes.specs.Steps.{program_in, function_in};

use hs_tree::{Function, Lvalue, Program, Variable, VariableDecl};

/// A function, and the program that it is part of.
#[derive(Clone, Copy)]
pub(crate) struct Within<'a> {
    pub program: &'a Program,
    pub function: &'a Function,
}

impl Within<'_> {
    /// The declaration of a variable, if there is one.
    #[tactic(auto, unfolding(crate::specs::Steps::program_in, crate::specs::Steps::function_in))]
    fn declared(&self, variable: Variable) -> Option<&VariableDecl>
        ensures { option_copied result ≡ declared (program_in self.now.program.now) (function_in self.now.function.now) variable }
    {
        match variable {
            Variable::Global(place) => {
                let global = self.program.globals.items().get(place as usize)?;
                Some(&global.variable)
            }
            Variable::Local(place) => self.local(place),
        }
    }

    /// The parameter or local of that place among those of the function, if there is one.
    #[tactic(auto, unfolding(crate::specs::Steps::function_in))]
    pub fn local(&self, place: u32) -> Option<&VariableDecl>
        ensures { option_copied result ≡ slice_get (function_in self.now.function.now).variables place }
    {
        self.function.variables.items().get(place as usize)
    }

    /// Whether the lvalue is a variable that is a slot.
    #[tactic(auto, unfolding(crate::specs::Steps::program_in))]
    pub fn in_slot(&self, object: &Lvalue) -> bool
        ensures { result ≡ in_slot (program_in self.now.program.now) (function_in self.now.function.now) (view_left object.now) }
    {
        match object {
            Lvalue::Variable { variable, .. } => match self.declared(*variable) {
                Some(declared) => declared.is_slot(&self.program.types),
                None => false,
            },
            Lvalue::Literal { .. }
            | Lvalue::Target { .. }
            | Lvalue::Element { .. }
            | Lvalue::Member { .. }
            | Lvalue::Arrow { .. } => false,
        }
    }
}

/// The parameters of a function.
#[tactic(auto, unfolding(crate::specs::Steps::function_in))]
pub(crate) fn parameters(function: &Function) -> &[VariableDecl]
    ensures { result.now ≡ take (function_in function.now).parameters (function_in function.now).variables }
{
    let its = function.variables.items();
    match its.get(..function.parameters as usize) {
        Some(first) => first,
        None => its,
    }
}
