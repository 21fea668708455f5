//! What a variable is.

ghost use Rattle.std.specs.Prelude.{◌≡◌, option_copied, Some, None};
ghost use Rattle.hs_meaning.specs.Machine.{object_at, slot, value_of_slot};
ghost use Rattle.hs_state.specs.Bindings.{place_of};

use hs_values::Value;
use std::marker::Model;

/// Where a variable is.
#[derive(Drop)]
enum Home {
    /// In a slot that was given no value yet.
    Empty,
    /// In a slot, with its value.
    Slot(Value),
    /// In the object of that number.
    Object(u32),
}

/// What a variable is: a slot with one value, or an object. Contracts see the binding of the definitions.
#[derive(Drop)]
pub struct Binding {
    home: Home,
}

impl Model for Binding {
    ghost use Rattle.hs_meaning.specs.Machine.{Binding as meant};

    ghost Value = { meant };

    ghost use Rattle.hs_state.specs.Bindings.{binding_of};

    ghost view = { λ it. binding_of it.home };
}

impl Binding {
    /// A slot without a value.
    pub fn empty() -> Binding
        ensures { result ≡ slot None }
    {
        Binding { home: Home::Empty }
    }

    /// A slot with that value.
    #[inline(always)]
    pub fn slot(value: Value) -> Binding
        ensures { result ≡ slot (Some value) }
    {
        Binding {
            home: Home::Slot(value),
        }
    }

    /// The object of that number.
    pub fn object(place: u32) -> Binding
        ensures { result ≡ object_at place }
    {
        Binding {
            home: Home::Object(place),
        }
    }

    /// The value of a slot that has one.
    #[inline(always)]
    pub fn value(&self) -> Option<&Value>
        ensures { option_copied result ≡ value_of_slot (Some self.now) }
    {
        match &self.home {
            Home::Slot(value) => Some(value),
            Home::Empty | Home::Object(_) => None,
        }
    }

    /// Ends the binding, as `Value::discard` does.
    #[inline(always)]
    pub fn discard(self) {
        match self.home {
            Home::Slot(value) => value.discard(),
            Home::Empty | Home::Object(_) => (),
        }
    }

    /// The number of the object, if it is one.
    pub fn place(&self) -> Option<u32>
        ensures { result ≡ place_of self.now }
    {
        match &self.home {
            Home::Empty | Home::Slot(_) => None,
            Home::Object(place) => Some(*place),
        }
    }
}
