//! What is known at an operation of a program.

ghost use Rattle.std.specs.Prelude.{◌≡◌, ◌≤◌, ◌&&◌, length, slice_get};
ghost use Rattle.hs_chains.specs.Answering.{is_number, is_on_stack, is_slot_there};
ghost use Rattle.hs_chains.specs.Knowledge.{places_of};
ghost use Rattle.hs_code.specs.Codes.{is_slot_in};
ghost use Rattle.hs_effects.specs.Calling.{whole_of};
ghost use Rattle.hs_facts.specs.Effects.{placed_in};
ghost use Rattle.hs_must.specs.Answers.{names_in};

use hs_code::Code;
use hs_effects::EffectTable;
use hs_flow::Around;
use hs_must::Must;
use hs_tree::{Variable, VariableDecl};
use hs_types::Types;

/// An operation of a function, and the tables that answer what is known there.
#[derive(Clone, Copy)]
pub(crate) struct Known<'a> {
    pub code: &'a Code<'a>,
    pub effects: &'a EffectTable,
    pub must: &'a Must,
    /// The handle names of the function.
    pub names: &'a [Variable],
    pub function: u32,
    pub at: u32,
    /// How many values are on the stack before the operation.
    pub places: u32,
    pub ghost placed: { places ≡ places_of (placed_in (whole_of code.now) function at) },
    pub ghost named: { names.now ≡ names_in (whole_of code.now) function },
    pub ghost few: { length names.now ≤ 4294967295 },
}

impl<'a> Known<'a> {
    /// Whether a name of the function has that number.
    fn is_number(&self, h: u32) -> bool
        ensures { result ≡ is_number (whole_of self.now.code.now) self.now.function h }
    {
        (h as usize) < self.names.len()
    }

    /// Whether there is a value at that place before the operation.
    fn is_on_stack(&self, place: u32) -> bool
        ensures { result ≡ is_on_stack (whole_of self.now.code.now) self.now.function self.now.at place }
    {
        place < self.places
    }

    /// Whether the variable is a slot of the function.
    fn is_slot(&self, variable: Variable) -> bool
        ensures { result ≡ is_slot_there (whole_of self.now.code.now) self.now.function variable }
    {
        let program = self.code.program;
        let types = &program.types;
        match program.functions.get(self.function as usize) {
            Some(function) => match variable {
                Variable::Global(place) => match program.globals.items().get(place as usize) {
                    Some(global) => global.variable.is_slot(types),
                    None => false,
                },
                Variable::Local(place) => is_slot_at(types, function.variables.items(), place),
            },
            None => false,
        }
    }
}

/// Whether the variable of that place is there and is a slot.
fn is_slot_at(types: &Types, variables: &[VariableDecl], place: u32) -> bool
    ensures { result ≡ is_slot_in types.now (slice_get variables.now place) }
{
    match variables.get(place as usize) {
        Some(variable) => variable.is_slot(types),
        None => false,
    }
}

impl<'a> Around for Known<'a> {
    ghost use Rattle.hs_taint.specs.Knowing.{given_at};

    ghost given = { given_at };

    fn function(&self) -> u32
        ensures { result ≡ (given_at self.now).function }
    {
        self.function
    }

    fn places(&self) -> u32
        ensures { result ≡ (given_at self.now).places }
    {
        self.places
    }

    fn names(&self) -> &[Variable]
        ensures names { result.now ≡ (given_at self.now).names }
        ensures few { length result.now ≤ 4294967295 }
    {
        self.names
    }

    fn distinct(&self, a: u32, b: u32) -> bool
        ensures { result ≡ (given_at self.now).distinct a b }
    {
        self.is_number(a) && (self.is_number(b) && self.must.distinct(self.function, self.at, a, b))
    }

    fn locked(&self, h: u32) -> bool
        ensures { result ≡ (given_at self.now).locked h }
    {
        self.is_number(h) && self.must.locked(self.function, self.at, h)
    }

    fn live(&self, h: u32) -> bool
        ensures { result ≡ (given_at self.now).live h }
    {
        self.is_number(h) && self.must.live(self.function, self.at, h)
    }

    fn saved(&self, slot: Variable, h: u32) -> bool
        ensures { result ≡ (given_at self.now).saved slot h }
    {
        self.is_number(h)
            && (self.is_slot(slot) && self.must.saved(self.function, self.at, slot, h))
    }

    fn with_lock(&self, place: u32, h: u32) -> bool
        ensures { result ≡ ((given_at self.now).with place h && (given_at self.now).locked h) }
    {
        self.with(place, h) && self.locked(h)
    }

    fn with(&self, place: u32, h: u32) -> bool
        ensures { result ≡ (given_at self.now).with place h }
    {
        self.is_number(h)
            && (self.is_on_stack(place) && self.must.with(self.function, self.at, place, h))
    }

    fn restores(&self) -> bool
        ensures { result ≡ (given_at self.now).restores }
    {
        self.effects.restores(self.function, self.at)
    }
}
