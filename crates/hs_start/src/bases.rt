//! Constants, and the objects that they name (X3.159-1989 3.4).

ghost use Rattle.std.specs.Prelude.{◌≡◌, length, option_copied, IfOk};
ghost use Rattle.hs_meaning.specs.Objects.{bindings, constant_value, object_in, object_of_base, objects_for, variables_of};
ghost use Rattle.hs_state.specs.Settings.{setting_here};

use crate::starting::first_literal;
use crate::variables::places;
use hs_base::NoMemory;
use hs_heap::Pointer;
use hs_state::{Binding, Setting};
use hs_tree::{Base, Constant};
use hs_values::Value;
use std::alloc::Global;

/// A program, and the objects that its constants name.
#[derive(Drop)]
pub(crate) struct Bases<'a> {
    /// What the machine needs of the program.
    pub(crate) setting: Setting<'a>,
    /// What the variables of the program are, without their values.
    variables: Vec<Binding>,
    /// The number of the object of the first string literal.
    first_literal: u32,
    ghost of_variables: { variables.items ≡ bindings setting.types.now 0 (variables_of setting.globals.now) },
    ghost of_literals: { first_literal ≡ length (objects_for setting.types.now (variables_of setting.globals.now)) },
}

/// Returns the number of the object that a variable is, or 0 if it is not an object.
#[tactic(auto, using(crate::proofs::Naming::object_in_place))]
fn object_in(variable: Option<&Binding>) -> u32
    ensures { result ≡ object_in (option_copied variable.entry) }
{
    match variable {
        Some(its) => its.place().unwrap_or(0),
        None => 0,
    }
}

impl<'a> Bases<'a> {
    /// The objects that constants of the program name.
    pub(crate) fn of(alloc: Global, setting: Setting<'a>) -> Result<Bases<'a>, NoMemory>
        ensures { IfOk result (λ its. setting_here its.setting ≡ setting_here setting.entry) }
    {
        let variables = places(alloc, setting.types, setting.globals.items())?;
        let first_literal = first_literal(&setting)?;
        Ok(Bases {
            setting,
            variables,
            first_literal,
        })
    }

    /// The number of the object of an address constant. A slot, which no typed program takes the address of, has 0.
    fn object_of(&self, base: Base) -> Result<u32, NoMemory>
        ensures { IfOk result (λ number. number ≡ object_of_base (setting_here self.now.setting) base) }
    {
        match base {
            Base::Global(place) => Ok(object_in(self.variables.as_slice().get(place as usize))),
            Base::Literal(place) => self.first_literal.checked_add(place).ok_or(NoMemory),
        }
    }

    /// The constant as a value.
    ///
    /// # Errors
    ///
    /// `NoMemory` if the number of an object has more than 32 bits.
    pub(crate) fn value(&self, constant: Constant) -> Result<Value, NoMemory>
        ensures { IfOk result (λ value. value ≡ constant_value (setting_here self.now.setting) constant) }
    {
        match constant {
            Constant::Number(bits) => Ok(Value::number(bits)),
            Constant::Nil => Ok(Value::pointer(Pointer::Nil)),
            Constant::Address { base, offset } => {
                let object = self.object_of(base)?;
                Ok(Value::pointer(Pointer::Fixed(object, i64::from(offset))))
            }
        }
    }
}
