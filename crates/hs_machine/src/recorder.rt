//! Decisions, as they are recorded.

ghost use Rattle.std.specs.Prelude.{◌≡◌, ◌≤◌, ◌==◌, not, min, [], ◌∷◌, ◌++◌, filter, IfOk, OnOk};
ghost use Rattle.hs_machine.specs.Advancing.{Gives};
ghost use Rattle.hs_machine.specs.Recording.{IsCallOf, SizedWith, named, numbers_in, size_of, size_of_one};
ghost use Rattle.hs_movers.specs.Movers.{no_block};

use crate::transcript::MachineEnd;
use hs_base::{LimitKind, NoMemory, Numbers};
use hs_heap::{Decision, Which};
use hs_movers::{Mover, MoverCall};
use hs_state::Machine;
use hs_table::Routine;
use std::alloc::Global;

/// The decisions of a run so far. They and the block numbers in them are at most 4000000.
#[derive(Drop)]
pub(crate) struct Recorder {
    pub(crate) decisions: Vec<Decision>,
    /// How many decisions there are, and block numbers in them.
    pub(crate) size: u64,
    pub(crate) ghost counted: { size ≡ size_of decisions.items },
    pub(crate) ghost few: { size ≤ 4000000 },
}

/// The numbers but 0, which is that of no block.
fn of_blocks(alloc: Global, numbers: &[u32]) -> Result<Numbers, NoMemory>
    ensures { IfOk result (λ its. its ≡ filter (λ number. not (number == 0)) numbers.now) }
{
    let mut its = Vec::new(alloc);
    'numbers: for number in numbers {
        if *number != 0 {
            its.push(*number)?;
        }
    }
    Ok(Numbers::from_vec(its))
}

/// What is named, without the number 0.
fn named(alloc: Global, which: Which) -> Result<Which, NoMemory>
    ensures { IfOk result (λ its. its ≡ named which) }
{
    match which {
        Which::All => Ok(Which::All),
        Which::These(numbers) => Ok(Which::These(of_blocks(alloc, numbers.items())?)),
    }
}

/// The decision that names no block.
fn no_block(alloc: Global) -> Decision
    ensures { result ≡ no_block }
{
    Decision {
        moves: Which::These(Numbers::from_vec(Vec::new(alloc))),
        purges: Which::These(Numbers::from_vec(Vec::new(alloc))),
    }
}

/// The decision of a mover for the next call of a routine that moves or purges, as it is recorded. The mover is told the number of the call, what
/// the table lets the routine do, and how many blocks were made.
pub(crate) fn decided(
    alloc: Global,
    mover: &mut Box<dyn Mover>,
    recorder: &Recorder,
    machine: &Machine,
    routine: &Routine,
    call: &MoverCall,
) -> Result<Decision, NoMemory>
    requires told { IsCallOf recorder.now.decisions.items machine.now.heap.blocks routine.now call.now }
    ensures same_number { number mover.new ≡ number mover.old }
    ensures gives { IfOk result (λ taken. Gives (told mover.old) taken (told mover.new)) }
{
    let mut given = no_block(alloc);
    mover.decide(alloc, call, &mut given)?;
    Ok(Decision {
        moves: named(alloc, given.moves)?,
        purges: named(alloc, given.purges)?,
    })
}

/// How many block numbers are named one by one.
fn count(which: &Which) -> usize
    ensures { result ≡ numbers_in which.now }
{
    match which {
        Which::All => 0,
        Which::These(numbers) => numbers.items().len(),
    }
}

/// What a decision counts for, up to the greatest number.
fn size_of(decision: &Decision) -> u64
    ensures { result ≡ min (size_of_one decision.now) 18446744073709551615 }
{
    let named = (count(&decision.moves) as u64).saturating_add(count(&decision.purges) as u64);
    named.saturating_add(1)
}

impl Recorder {
    /// Nothing is recorded yet.
    pub(crate) fn new(alloc: Global) -> Recorder
        ensures { result.decisions.items ≡ [] }
    {
        Recorder {
            decisions: Vec::new(alloc),
            size: 0,
        }
    }

    /// What is counted with one decision more, if there is room for it.
    pub(crate) fn size_with(&self, decision: &Decision) -> Result<u64, MachineEnd>
        ensures { SizedWith self.now.decisions.items decision.now result }
    {
        let size = self.size.saturating_add(size_of(decision));
        if size > LimitKind::Script.number() {
            return Err(MachineEnd::Limit(LimitKind::Script.passed()));
        }
        Ok(size)
    }

    /// Records a decision.
    pub(crate) fn record(&mut self, decision: Decision, size: u64) -> Result<(), NoMemory>
        requires sized { size ≡ size_of (self.old.decisions.items ++ decision ∷ []) }
        requires few { size ≤ 4000000 }
        ensures recorded { OnOk result (self.new.decisions.items ≡ self.old.decisions.items ++ decision ∷ []) }
    {
        self.decisions.push(decision)?;
        self.size = size;
        Ok(())
    }
}
