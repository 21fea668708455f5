//! Decisions of the schedule: which blocks to move and which to purge.

ghost use Rattle.std.specs.Prelude.{◌≡◌};
ghost use Rattle.hs_heap.specs.Passes.{names_all};

use hs_base::Numbers;

/// Blocks that a decision names, by number from 1.
#[derive(Drop)]
pub enum Which {
    All,
    These(Numbers),
}

/// A decision of the schedule: the blocks to move and the blocks to purge. What a block does not permit counts for nothing, so every list of
/// decisions is a schedule.
#[derive(Drop)]
pub struct Decision {
    pub moves: Which,
    pub purges: Which,
}

impl Decision {
    /// Whether it moves all blocks, or purges all.
    pub(crate) fn names_all(&self) -> bool
        ensures { result ≡ names_all self.now }
    {
        matches!(self.moves, Which::All) || matches!(self.purges, Which::All)
    }
}
