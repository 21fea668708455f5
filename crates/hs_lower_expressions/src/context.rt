//! What expressions are lowered in.

ghost use Rattle.std.specs.Prelude.{◌≡◌, option_copied, slice_get};
ghost use Rattle.hs_lowering.specs.Lowering.{access_in, declared_in, slot_of, takes_decision};
ghost use Rattle.hs_meaning.specs.Settings.{access_of};
ghost use Rattle.hs_tree.specs.Views.{view_left};
ghost use Rattle.hs_types.specs.TypeTables.{size_of};
ghost use Rattle.hs_lower_expressions.specs.Contexts.{setting_in};

use crate::Classes;
use hs_code::Access;
use hs_tree::{
    Class, Globals, Literals, Lvalue, Representatives, Routines, TakenFields, Variable,
    VariableDecl, Variables,
};
use hs_types::{Integer, Row, TypeId, Types};

/// What expressions are lowered in: what their program declares, the variables of their function, and the piece of text that they are
/// part of. All that an expression names must be there: of what is not, the code is wrong, without an error.
#[derive(Clone, Copy)]
pub struct Context<'a> {
    /// The types of the program.
    pub types: &'a Types,
    /// The objects of static storage duration.
    pub globals: &'a Globals,
    /// The string literals.
    pub literals: &'a Literals,
    /// The routines of the table.
    pub routines: &'a Routines,
    /// Which types are one in several units.
    pub same: &'a Representatives,
    /// The fields whose address is taken.
    pub taken: &'a TakenFields,
    /// The classes of pointers.
    pub classes: &'a Classes,
    /// The variables of the function, its parameters first.
    pub variables: &'a Variables,
    /// The number of the piece of text, as docs/CODE.md counts them ("Statements").
    pub piece: u32,
}

impl Context<'_> {
    /// What a load or a store of the lvalue reaches.
    #[tactic(auto, unfolding(crate::specs::Contexts::setting_in))]
    pub(crate) fn access_of(&self, object: &Lvalue) -> Access
        ensures { result ≡ access_in (access_of (setting_in self.now) (view_left object.now)) }
    {
        let type_id = object.head().type_id;
        match Class::of(self.types, self.same, self.taken, object) {
            Some(class) => Access::Pointer(self.classes.number(&class)),
            None => match self.types.row(type_id) {
                Some(Row::Integer(kind)) => Access::Number(kind),
                Some(Row::Enumeration(_)) => Access::Number(Integer::Int),
                Some(
                    Row::Void
                    | Row::Pointer(_)
                    | Row::Struct(_)
                    | Row::Array { .. }
                    | Row::OpenArray(_)
                    | Row::Function { .. },
                )
                | None => Access::Struct(self.size_of(type_id)),
            },
        }
    }

    /// The size of a type in bytes, or 0 if it is incomplete.
    fn size_of(&self, type_id: TypeId) -> u32
        ensures { result ≡ size_of self.now.types.now type_id }
    {
        match self.types.layout(type_id) {
            Some(layout) => layout.size,
            None => 0,
        }
    }

    /// The declaration of a variable, if there is one.
    #[tactic(auto, unfolding(crate::specs::Contexts::setting_in))]
    fn declared(&self, variable: Variable) -> Option<&VariableDecl>
        ensures { option_copied result ≡ declared_in (setting_in self.now) self.now.variables.now variable }
    {
        match variable {
            Variable::Global(place) => {
                let global = self.globals.items().get(place as usize)?;
                Some(&global.variable)
            }
            Variable::Local(place) => self.variables.items().get(place as usize),
        }
    }

    /// The slot that the lvalue is, if it is one.
    #[tactic(auto, unfolding(crate::specs::Contexts::setting_in))]
    pub(crate) fn slot_of(&self, object: &Lvalue) -> Option<Variable>
        ensures { result ≡ slot_of (setting_in self.now) self.now.variables.now (view_left object.now) }
    {
        match object {
            Lvalue::Variable { variable, .. } => {
                let declared = self.declared(*variable)?;
                declared.is_slot(self.types).then_some(*variable)
            }
            Lvalue::Literal { .. }
            | Lvalue::Target { .. }
            | Lvalue::Element { .. }
            | Lvalue::Member { .. }
            | Lvalue::Arrow { .. } => None,
        }
    }

    /// Whether a call of the routine takes a decision: it moves or purges memory.
    pub(crate) fn takes_decision(&self, routine: u32) -> bool
        ensures { result ≡ takes_decision (slice_get self.now.routines.now routine) }
    {
        match self.routines.items().get(routine as usize) {
            Some(its) => its.routine.moves || its.routine.purges,
            None => false,
        }
    }
}
