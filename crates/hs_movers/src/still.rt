//! The mover that moves nothing.

ghost use Rattle.std.specs.Prelude.{◌≡◌, IsOk, OnOk, Some, []};
ghost use Rattle.hs_movers.specs.Movers.{Decides, no_block};

use crate::{Mover, MoverCall, Script};
use hs_base::{NoMemory, Numbers};
use hs_heap::{Decision, Which};
use std::alloc::Global;

/// Moves and purges nothing. Its number is 0.
#[derive(Drop)]
pub struct Still;

impl Still {
    /// The mover. Takes no memory.
    pub fn new() -> Still
        ensures number { ⟦<Still as Mover>⟧.number result ≡ 0 }
        ensures tells { ⟦<Still as Mover>⟧.told result ≡ Some [] }
    {
        Still
    }
}

/// Names no block. Takes no memory.
pub(crate) fn no_block(alloc: Global) -> Decision
    ensures { result ≡ no_block }
{
    Decision {
        moves: Which::These(Numbers::from_vec(Vec::new(alloc))),
        purges: Which::These(Numbers::from_vec(Vec::new(alloc))),
    }
}

impl Mover for Still {
    ghost number = { λ _. 0 };

    ghost told = { λ _. Some [] };

    ghost after = { λ _ _. Some [] };

    fn tag(&self) -> u8 {
        0
    }

    fn load(&mut self, _alloc: Global, _script: &Script) -> Result<(), NoMemory> {
        Ok(())
    }

    fn decide(
        &mut self,
        alloc: Global,
        _call: &MoverCall,
        into: &mut Decision,
    ) -> Result<(), NoMemory>
        ensures same_number { ⟦<Still as Mover>⟧.number self.new ≡ ⟦<Still as Mover>⟧.number self.old }
        ensures decides { OnOk result (Decides (⟦<Still as Mover>⟧.told self.old) into.new (⟦<Still as Mover>⟧.told self.new)) }
        ensures succeeds { IsOk result }
    {
        *into = no_block(alloc);
        Ok(())
    }
}
