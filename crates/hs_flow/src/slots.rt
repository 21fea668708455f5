//! Tests of slots.

ghost use Rattle.std.specs.Prelude.{◌≡◌, suc};
ghost use Rattle.hs_facts.specs.Names.{same_variable};
ghost use Rattle.hs_flow.specs.Next.{is_nothing};
ghost use Rattle.hs_flow.specs.Slots.{is_below, is_class, is_place, is_variable};

use crate::Slot;
use hs_tree::Variable;

/// Whether the variables are one.
pub(crate) fn same_variable(a: Variable, b: Variable) -> bool
    ensures { result ≡ same_variable a b }
{
    match a {
        Variable::Global(a) => match b {
            Variable::Global(b) => a == b,
            Variable::Local(_) => false,
        },
        Variable::Local(a) => match b {
            Variable::Global(_) => false,
            Variable::Local(b) => a == b,
        },
    }
}

/// Whether the slot is no place, or a place below that one.
pub(crate) fn is_below(base: u32, slot: Slot) -> bool
    ensures { result ≡ is_below base slot }
{
    match slot {
        Slot::Place(place) => place < base,
        Slot::Nothing | Slot::Answer | Slot::Variable(_) | Slot::Class(_) => true,
    }
}

/// Whether the slot is that place.
pub(crate) fn is_place(at: u32, slot: Slot) -> bool
    ensures { result ≡ is_place at slot }
{
    match slot {
        Slot::Place(place) => place == at,
        Slot::Nothing | Slot::Answer | Slot::Variable(_) | Slot::Class(_) => false,
    }
}

/// Whether the slot is the place after that one.
pub(crate) fn is_next_place(at: u32, slot: Slot) -> bool
    ensures { result ≡ is_place (suc at) slot }
{
    match slot {
        Slot::Place(place) => place > at && place - at == 1,
        Slot::Nothing | Slot::Answer | Slot::Variable(_) | Slot::Class(_) => false,
    }
}

/// Whether the slot is that variable.
pub(crate) fn is_variable(variable: Variable, slot: Slot) -> bool
    ensures { result ≡ is_variable variable slot }
{
    match slot {
        Slot::Variable(its) => same_variable(its, variable),
        Slot::Nothing | Slot::Answer | Slot::Place(_) | Slot::Class(_) => false,
    }
}

/// Whether the slot is that class.
pub(crate) fn is_class(class: u32, slot: Slot) -> bool
    ensures { result ≡ is_class class slot }
{
    match slot {
        Slot::Class(its) => its == class,
        Slot::Nothing | Slot::Answer | Slot::Variable(_) | Slot::Place(_) => false,
    }
}

/// Whether the fact is about control alone.
pub(crate) fn is_nothing(slot: Slot) -> bool
    ensures { result ≡ is_nothing slot }
{
    matches!(slot, Slot::Nothing)
}
