//! The trait of movers.

ghost use Rattle.std.specs.Prelude.{◌≡◌, ◌≤◌, ◌||◌, ℕ, true, List, Option, OnOk};
ghost use Rattle.hs_heap.specs.declared.decision.Decision.{Decision};
ghost use Rattle.hs_movers.specs.Movers.{Decides};
ghost use Rattle.hs_movers.specs.declared.script.Script.{Script};

use crate::Script;
use hs_base::NoMemory;
use hs_heap::Decision;
use std::alloc::Global;

/// How many decisions a mover tells that never ends.
pub(crate) const MOST_DECISIONS: u32 = 4_000_001;

/// A call of a routine that moves or purges, as a mover sees it.
#[derive(Clone, Copy)]
pub struct MoverCall {
    /// The number of the call: a run counts its calls of such routines from 1.
    pub number: u64,
    /// Whether the table lets the routine move blocks.
    pub moves: bool,
    /// Whether it lets the routine purge blocks.
    pub purges: bool,
    /// How many blocks were made so far. Their numbers go from 1 to this one.
    pub blocks: u32,
    pub ghost counted: { 1 ≤ number },
    pub ghost permitted: { (moves || purges) ≡ true },
}

/// Decides which blocks are moved and purged, each time a routine is called that may do so. What a block does not permit counts for nothing,
/// so a mover may answer anything. What it answers is known only if it tells its decisions, which code does not see.
pub trait Mover: Drop {
    /// The number by which a mover is chosen.
    ghost number: { Self → ℕ };

    /// The decisions that are still to come, if the mover tells them.
    ghost told: { Self → Option (List Decision) };

    /// What the mover would tell if that script were loaded, if it would tell anything.
    ghost after: { Self → Script → Option (List Decision) };

    /// The number by which the mover is chosen. It never changes.
    fn tag(&self) -> u8
        ensures { result ≡ number self.now };

    /// Loads a script.
    ///
    /// # Errors
    ///
    /// `NoMemory` if memory runs out. What the mover tells then is not known.
    fn load(&mut self, alloc: Global, script: &Script) -> Result<(), NoMemory>
        ensures same_number { number self.new ≡ number self.old }
        ensures tells { OnOk result (told self.new ≡ after self.old script.now) };

    /// Replaces what is in `into` by the next decision.
    ///
    /// # Errors
    ///
    /// `NoMemory` if memory runs out. What the mover tells then is not known. The four movers of this crate take no memory.
    fn decide(
        &mut self,
        alloc: Global,
        call: &MoverCall,
        into: &mut Decision,
    ) -> Result<(), NoMemory>
        ensures same_number { number self.new ≡ number self.old }
        ensures decides { OnOk result (Decides (told self.old) into.new (told self.new)) };
}
