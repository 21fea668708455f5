//! Places of tokens, as trees keep them.

use crate::Origin;
use hs_base::Pos;

/// Where a token is, and whether it comes from a macro.
///
/// Example: the name `x` of the first line of a file is at column 1, with the origin `Plain`.
#[derive(Clone, Copy, Debug, PartialEq, Eq)]
pub struct Place {
    pub pos: Pos,
    pub origin: Origin,
}
