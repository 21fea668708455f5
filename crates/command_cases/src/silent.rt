//! Movers of a caller that tell nothing: contracts know nothing of what they decide.

ghost use Rattle.std.specs.Prelude.{None};

use hs_base::{NoMemory, Numbers};
use hs_heap::{Decision, Which};
use hs_movers::{Mover, MoverCall, Script};
use std::alloc::Global;

/// A mover that tells nothing.
#[derive(Drop)]
pub(crate) enum Silent {
    /// Names block 1 twice, block 2, a block that is not there, and the number of no block. Block 1 is also named to be purged.
    Careless,
    /// Names what it is asked as if it were blocks: the number of the call plus 1000, whether the routine moves plus 2000, whether it purges plus
    /// 3000, and how many blocks there are plus 4000.
    Witness,
    /// Names block 7 that many times.
    Verbose(usize),
    /// Has no memory for a decision.
    Poor,
}

/// These blocks.
fn these(alloc: Global, numbers: &[u32]) -> Result<Which, NoMemory> {
    Ok(Which::These(Numbers::from_vec(numbers.to_vec(alloc)?)))
}

/// The decision that moves these blocks.
fn moving(alloc: Global, numbers: Vec<u32>) -> Decision {
    Decision {
        moves: Which::These(Numbers::from_vec(numbers)),
        purges: Which::These(Numbers::from_vec(Vec::new(alloc))),
    }
}

/// What a call asks, as numbers of blocks.
fn asked(call: &MoverCall) -> [u32; 4] {
    let number = u32::try_from(call.number).unwrap_or(0);
    [
        number.saturating_add(1000),
        u32::from(call.moves) + 2000,
        u32::from(call.purges) + 3000,
        call.blocks.saturating_add(4000),
    ]
}

impl Silent {
    /// The decision for a call.
    fn decision(&self, alloc: Global, call: &MoverCall) -> Result<Decision, NoMemory> {
        match self {
            Silent::Careless => Ok(Decision {
                moves: these(alloc, &[1, 0, 2, 9, 1])?,
                purges: these(alloc, &[0, 1])?,
            }),
            Silent::Witness => Ok(moving(alloc, asked(call).to_vec(alloc)?)),
            Silent::Verbose(times) => Ok(moving(alloc, vec![in alloc; 7u32; *times]?)),
            Silent::Poor => Err(NoMemory),
        }
    }
}

impl Mover for Silent {
    ghost number = { λ _. 9 };

    ghost told = { λ _. None };

    ghost after = { λ _ _. None };

    fn tag(&self) -> u8 {
        9
    }

    fn load(&mut self, _alloc: Global, _script: &Script) -> Result<(), NoMemory> {
        Ok(())
    }

    fn decide(
        &mut self,
        alloc: Global,
        call: &MoverCall,
        into: &mut Decision,
    ) -> Result<(), NoMemory> {
        *into = self.decision(alloc, call)?;
        Ok(())
    }
}
