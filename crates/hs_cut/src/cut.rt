//! Cuts, and why there may be none.

ghost use Rattle.std.specs.Prelude.{◌≡◌};
ghost use Rattle.hs_cut.specs.declared.cut.CutEnd.TheVariants.{NoMemory as no_memory_end};

use crate::lists::Flow;
use hs_base::{NoMemory, Numbers};

/// A least cut, and what shows that it is least.
#[derive(Drop)]
pub struct Cut {
    /// The vertices inside, which ascend.
    pub inside: Numbers,
    /// A flow as large as the number of edges that cross.
    pub flow: Flow,
}

/// Why there is no cut.
#[derive(Drop)]
pub enum CutEnd {
    /// Edges that may not be crossed join a vertex that must be inside to one that must be outside: the vertices of the
    /// least among the shortest such paths.
    NoCut(Numbers),
    /// Memory ran out.
    NoMemory,
}

impl From<NoMemory> for CutEnd {
    ghost from_gives = { λ _ e. e ≡ no_memory_end };

    fn from(_refused: NoMemory) -> CutEnd {
        CutEnd::NoMemory
    }
}
