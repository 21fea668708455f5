//! The mover that draws its decisions from a seed.

ghost use Rattle.std.specs.Prelude.{◌≡◌, IsOk, OnOk, Some};
ghost use Rattle.hs_movers.specs.Movers.{Decides, most_decisions};
ghost use Rattle.hs_movers.specs.Seeds.{all_if, decision_for, next_state, seeded};

use crate::mover::MOST_DECISIONS;
use crate::still::no_block;
use crate::{Mover, MoverCall, Script};
use hs_base::{NoMemory, Numbers};
use hs_heap::{Decision, Which};
use std::alloc::Global;

/// Moves all blocks, purges all, both or neither, as a generator of numbers says. Its number is 3.
#[derive(Drop)]
pub struct Seeded {
    state: u64,
    /// How many decisions it still tells.
    left: u32,
}

impl Seeded {
    /// The mover from the seed 0, before its first decision.
    #[tactic(auto, using(crate::proofs::Told::counted))]
    pub fn new() -> Seeded
        ensures number { ⟦<Seeded as Mover>⟧.number result ≡ 3 }
        ensures tells { ⟦<Seeded as Mover>⟧.told result ≡ Some (seeded most_decisions 0) }
    {
        Seeded {
            state: 0,
            left: MOST_DECISIONS,
        }
    }
}

/// The state after a decision.
#[tactic(auto, unfolding(crate::specs::Seeds::next_state))]
pub(crate) fn next_state(state: u64) -> u64
    ensures { result ≡ next_state state }
{
    state
        .wrapping_mul(6_364_136_223_846_793_005)
        .wrapping_add(1_442_695_040_888_963_407)
}

/// All blocks, or none.
fn all_if(alloc: Global, all: bool) -> Which
    ensures { result ≡ all_if all }
{
    if all {
        Which::All
    } else {
        Which::These(Numbers::from_vec(Vec::new(alloc)))
    }
}

/// What a state decides. Takes no memory.
#[tactic(auto, unfolding(crate::specs::Seeds::decision_for))]
fn decision_for(alloc: Global, state: u64) -> Decision
    ensures { result ≡ decision_for state }
{
    Decision {
        moves: all_if(alloc, state >> 63 == 1),
        purges: all_if(alloc, (state >> 62) % 2 == 1),
    }
}

impl Mover for Seeded {
    ghost number = { λ _. 3 };

    ghost told = { λ it. Some (seeded it.left it.state) };

    ghost after = { λ _ script. Some (seeded most_decisions script.seed) };

    fn tag(&self) -> u8 {
        3
    }

    #[tactic(auto, using(crate::proofs::Told::counted))]
    fn load(&mut self, _alloc: Global, script: &Script) -> Result<(), NoMemory> {
        self.state = script.seed;
        self.left = MOST_DECISIONS;
        Ok(())
    }

    #[tactic(auto, using(crate::proofs::Told::none_drawn, crate::proofs::Told::one_drawn))]
    fn decide(
        &mut self,
        alloc: Global,
        _call: &MoverCall,
        into: &mut Decision,
    ) -> Result<(), NoMemory>
        ensures same_number { ⟦<Seeded as Mover>⟧.number self.new ≡ ⟦<Seeded as Mover>⟧.number self.old }
        ensures decides { OnOk result (Decides (⟦<Seeded as Mover>⟧.told self.old) into.new (⟦<Seeded as Mover>⟧.told self.new)) }
        ensures succeeds { IsOk result }
    {
        if self.left == 0 {
            *into = no_block(alloc);
        } else {
            self.left -= 1;
            self.state = next_state(self.state);
            *into = decision_for(alloc, self.state);
        }
        Ok(())
    }
}
