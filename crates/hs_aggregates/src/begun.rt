//! The aggregates that have begun, as a list whose innermost one is the first.

ghost use Rattle.std.specs.Prelude.{◌≡◌, ◌∷◌, [], IfOk, IfSome, IfNone};
ghost use Rattle.hs_aggregates.specs.Aggregates.{count_begun, is_growing};

use crate::aggregates::Aggregate;
use hs_base::NoMemory;
use hs_operand_types::is_open;
use hs_types::Types;
use std::alloc::Global;
use std::marker::Model;

/// The aggregates that have begun. Contracts see the list, the innermost one first.
#[derive(Drop)]
pub struct Begun {
    vec: Vec<Aggregate>,
}

impl Model for Begun {
    ghost use Rattle.std.specs.Prelude.{List, reverse};
    ghost use Rattle.hs_aggregates.specs.declared.aggregates.Aggregate.{Aggregate};

    ghost Value = { List Aggregate };

    ghost view = { λ it. reverse it.vec.items };
}

impl Begun {
    /// None yet. Takes no memory.
    ///
    /// Example: `count` of it is 0.
    pub fn new(alloc: Global) -> Begun
        ensures { result ≡ [] }
    {
        Begun {
            vec: Vec::new(alloc),
        }
    }

    /// The aggregates, and one more inside them.
    ///
    /// Example: `pop` then takes it.
    pub fn with(self, it: Aggregate) -> Result<Begun, NoMemory>
        ensures { IfOk result (λ all. all ≡ it ∷ self) }
    {
        let Begun { mut vec } = self;
        vec.push(it)?;
        Ok(Begun { vec })
    }

    /// Takes the innermost one, if there is one.
    ///
    /// Example: `None` if none has begun.
    pub fn pop(&mut self) -> Option<Aggregate>
        ensures some { IfSome result (λ it. self.old ≡ it ∷ self.new) }
        ensures none { IfNone result (self.old ≡ []) }
        ensures left { IfNone result (self.new ≡ []) }
    {
        self.vec.pop()
    }

    /// How many elements of the outermost one have begun.
    ///
    /// Example: 2 after two elements of an array.
    #[tactic(auto, using(crate::proofs::Counted::count_reversed))]
    pub fn count(&self) -> u32
        ensures { result ≡ count_begun self.now }
    {
        match self.vec.as_slice().split_first() {
            Some((first, _)) => first.begun,
            None => 0,
        }
    }

    /// Whether the outermost one is an array of unknown length, which gets its length from the list.
    ///
    /// Example: `true` for `int a[]` in the list of `int a[] = { 1, 2 };`.
    #[tactic(auto, using(crate::proofs::Counted::growing_reversed))]
    pub fn is_growing(&self, types: &Types) -> bool
        ensures { result ≡ is_growing types.now self.now }
    {
        match self.vec.as_slice().split_first() {
            Some((first, _)) => is_open(types, first.type_id),
            None => false,
        }
    }
}
