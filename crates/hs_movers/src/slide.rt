//! The mover that moves everything.

ghost use Rattle.std.specs.Prelude.{◌≡◌, IsOk, OnOk, Some};
ghost use Rattle.hs_movers.specs.Movers.{Decides, all_blocks, most_decisions, repeated};

use crate::mover::MOST_DECISIONS;
use crate::still::no_block;
use crate::{Mover, MoverCall, Script};
use hs_base::{NoMemory, Numbers};
use hs_heap::{Decision, Which};
use std::alloc::Global;

/// Moves every block that may move, at each call. Its number is 1.
#[derive(Drop)]
pub struct Slide {
    /// How many decisions it still tells.
    left: u32,
}

impl Slide {
    /// The mover, before its first decision.
    #[tactic(auto, using(crate::proofs::Told::counted))]
    pub fn new() -> Slide
        ensures number { ⟦<Slide as Mover>⟧.number result ≡ 1 }
        ensures tells { ⟦<Slide as Mover>⟧.told result ≡ Some (repeated most_decisions all_blocks) }
    {
        Slide {
            left: MOST_DECISIONS,
        }
    }
}

/// Names every block to be moved. Takes no memory.
fn all_blocks(alloc: Global) -> Decision
    ensures { result ≡ all_blocks }
{
    Decision {
        moves: Which::All,
        purges: Which::These(Numbers::from_vec(Vec::new(alloc))),
    }
}

impl Mover for Slide {
    ghost number = { λ _. 1 };

    ghost told = { λ it. Some (repeated it.left all_blocks) };

    ghost after = { λ _ _. Some (repeated most_decisions all_blocks) };

    fn tag(&self) -> u8 {
        1
    }

    #[tactic(auto, using(crate::proofs::Told::counted))]
    fn load(&mut self, _alloc: Global, _script: &Script) -> Result<(), NoMemory> {
        self.left = MOST_DECISIONS;
        Ok(())
    }

    #[tactic(auto, using(crate::proofs::Told::none_repeated, crate::proofs::Told::one_repeated))]
    fn decide(
        &mut self,
        alloc: Global,
        _call: &MoverCall,
        into: &mut Decision,
    ) -> Result<(), NoMemory>
        ensures same_number { ⟦<Slide as Mover>⟧.number self.new ≡ ⟦<Slide as Mover>⟧.number self.old }
        ensures decides { OnOk result (Decides (⟦<Slide as Mover>⟧.told self.old) into.new (⟦<Slide as Mover>⟧.told self.new)) }
        ensures succeeds { IsOk result }
    {
        if self.left == 0 {
            *into = no_block(alloc);
        } else {
            self.left -= 1;
            *into = all_blocks(alloc);
        }
        Ok(())
    }
}
