//! Variables of the machine.

ghost use Rattle.std.specs.Prelude.{◌≡◌, option_copied};
ghost use Rattle.hs_meaning.specs.Machine.{binding_of, value_of_slot, with_value};
ghost use Rattle.hs_meaning.specs.Operations.{slot_stop};
ghost use Rattle.hs_meaning.specs.Values.{or_nothing};
ghost use Rattle.hs_state.specs.Machines.{Keeps, address_in, machine_of};
ghost use Rattle.hs_values.specs.Answers.{Halts, or_stop};

use crate::{Binding, Machine};
use hs_heap::Pointer;
use hs_meaning::Stop;
use hs_tree::Variable;
use hs_values::{Halt, Value};
use std::mem::replace;

impl Machine<'_> {
    /// What the variable is, if it is there.
    fn binding(&self, name: Variable) -> Option<&Binding>
        ensures { option_copied result ≡ binding_of name (machine_of self.now) }
    {
        match name {
            Variable::Global(place) => self.globals.as_slice().get(place as usize),
            Variable::Local(place) => self.locals.items().get(place as usize),
        }
    }

    /// The value of a slot.
    ///
    /// # Errors
    ///
    /// `Undefined` if it has none, and `NoMemory`.
    pub fn get(&self, name: Variable) -> Result<Value, Halt>
        ensures { let its = value_of_slot (binding_of name (machine_of self.now)) in Halts (or_stop (slot_stop its) (or_nothing its)) result }
    {
        let Some(binding) = self.binding(name) else {
            return Err(Halt::Stopped(Stop::Undefined));
        };
        match binding.value() {
            Some(value) => Ok(value.copied(self.alloc)?),
            None => Err(Halt::Stopped(Stop::Undefined)),
        }
    }

    /// Gives a slot a value.
    #[inline(always)]
    pub fn set(&mut self, name: Variable, value: Value)
        ensures sets { machine_of self.new ≡ with_value name value (machine_of self.old) }
        ensures keeps { Keeps self.old self.new }
    {
        match name {
            Variable::Global(place) => {
                if let Some(binding) = self.globals.get_mut(place as usize) {
                    replace(binding, Binding::slot(value)).discard();
                }
            }
            Variable::Local(place) => {
                if (place as usize) < self.locals.items().len() {
                    self.locals
                        .replace(place as usize, Binding::slot(value))
                        .discard();
                }
            }
        }
    }

    /// The address of a variable that is an object.
    ///
    /// # Errors
    ///
    /// `BadPointer` for any other, which no typed program takes the address of.
    pub fn address(&self, name: Variable) -> Result<Value, Stop>
        ensures { result ≡ address_in (binding_of name (machine_of self.now)) }
    {
        let Some(binding) = self.binding(name) else {
            return Err(Stop::BadPointer);
        };
        match binding.place() {
            Some(place) => Ok(Value::pointer(Pointer::Fixed(place, 0))),
            None => Err(Stop::BadPointer),
        }
    }
}
