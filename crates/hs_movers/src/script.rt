//! Scripts.

ghost use Rattle.std.specs.Prelude.{◌≡◌};

use hs_heap::Decision;
use std::marker::Model;

/// Decisions, one after the other. Contracts see the list.
#[derive(Drop)]
pub struct Decisions {
    vec: Vec<Decision>,
}

impl Model for Decisions {
    ghost use Rattle.std.specs.Prelude.{List};
    ghost use Rattle.hs_heap.specs.declared.decision.Decision.{Decision};

    ghost Value = { List Decision };

    ghost view = { λ it. it.vec.items };
}

impl Decisions {
    /// The list of these items. Takes no memory.
    pub fn from_vec(items: Vec<Decision>) -> Decisions
        ensures { result ≡ items.items }
    {
        Decisions { vec: items }
    }

    /// Lends the items.
    pub fn items(&self) -> &[Decision]
        ensures { result.now ≡ self.now }
    {
        self.vec.as_slice()
    }
}

/// What a mover has to do: decision by decision, or by a seed.
#[derive(Drop)]
pub struct Script {
    /// What a mover that draws its decisions starts from.
    pub seed: u64,
    /// The decision for each call of a routine that moves or purges, in order.
    pub decisions: Decisions,
}
