//! Laws of the runs of straight programs.
ghost use Rattle.hs_meaning.specs.Straight.Run.{IsSafe};
ghost use Rattle.hs_meaning.specs.Straight.StaleUses.{HasStaleUses};
ghost use Rattle.hs_tree.specs.declared.straight.tree.Straight.{Straight};

/// A straight tree that has no stale use is safe: each of its runs equals the still one, and uses no stale pointer and
/// no purged handle.
pub fn safe_without_stale_uses()
    ensures { (tree : Straight) → HasStaleUses tree 0 → IsSafe tree }
{}
