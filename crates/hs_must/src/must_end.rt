//! Why a program has no must facts.

use hs_base::Limit;

/// Why a program has no must facts.
#[derive(Clone, Copy)]
pub enum MustEnd {
    /// A function has more than 64 handle names. The limit is `Names`.
    Limit(Limit),
    /// Memory ran out.
    NoMemory,
}
