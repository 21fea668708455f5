//! The mover that follows a script.

ghost use Rattle.std.specs.Prelude.{◌≡◌, IsOk, OnOk, Some, [], IfOk};
ghost use Rattle.hs_movers.specs.Movers.{Decides};

use crate::still::no_block;
use crate::{Mover, MoverCall, Script};
use hs_base::{NoMemory, Numbers};
use hs_heap::{Decision, Which};
use std::alloc::Global;
use std::collections::VecDeque;

/// Gives the decisions of the script that was loaded last, and then no block. Its number is 2.
#[derive(Drop)]
pub struct Scripted {
    /// Those that are still to come.
    decisions: VecDeque<Decision>,
}

impl Scripted {
    /// The mover without a script. Takes no memory.
    pub fn new(alloc: Global) -> Scripted
        ensures number { ⟦<Scripted as Mover>⟧.number result ≡ 2 }
        ensures tells { ⟦<Scripted as Mover>⟧.told result ≡ Some [] }
    {
        Scripted {
            decisions: VecDeque::new(alloc),
        }
    }
}

/// A copy of what names blocks.
fn which_copied(alloc: Global, given: &Which) -> Result<Which, NoMemory>
    ensures { IfOk result (λ it. it ≡ given.now) }
{
    match given {
        Which::All => Ok(Which::All),
        Which::These(numbers) => Ok(Which::These(Numbers::from_vec(
            numbers.items().to_vec(alloc)?,
        ))),
    }
}

/// A copy of a decision.
fn copied(alloc: Global, given: &Decision) -> Result<Decision, NoMemory>
    ensures { IfOk result (λ it. it ≡ given.now) }
{
    Ok(Decision {
        moves: which_copied(alloc, &given.moves)?,
        purges: which_copied(alloc, &given.purges)?,
    })
}

/// Copies of decisions, to be given one after the other.
fn queue_of(alloc: Global, given: &[Decision]) -> Result<VecDeque<Decision>, NoMemory>
    ensures { IfOk result (λ queue. queue.items ≡ given.now) }
{
    let mut queue = VecDeque::new(alloc);
    for decision in given {
        queue.push_back(copied(alloc, decision)?)?;
    }
    Ok(queue)
}

impl Mover for Scripted {
    ghost number = { λ _. 2 };

    ghost told = { λ it. Some it.decisions.items };

    ghost after = { λ _ script. Some script.decisions };

    fn tag(&self) -> u8 {
        2
    }

    fn load(&mut self, alloc: Global, script: &Script) -> Result<(), NoMemory> {
        self.decisions = queue_of(alloc, script.decisions.items())?;
        Ok(())
    }

    fn decide(
        &mut self,
        alloc: Global,
        _call: &MoverCall,
        into: &mut Decision,
    ) -> Result<(), NoMemory>
        ensures same_number { ⟦<Scripted as Mover>⟧.number self.new ≡ ⟦<Scripted as Mover>⟧.number self.old }
        ensures decides { OnOk result (Decides (⟦<Scripted as Mover>⟧.told self.old) into.new (⟦<Scripted as Mover>⟧.told self.new)) }
        ensures succeeds { IsOk result }
    {
        *into = match self.decisions.pop_front() {
            Some(decision) => decision,
            None => no_block(alloc),
        };
        Ok(())
    }
}
