//! What is kept of each function.

use crate::facts::FunctionFacts;
use hs_rows::Rows;

/// What is kept of a function.
#[derive(Drop)]
pub(crate) enum Kept {
    /// Of one with handle names.
    Named(FunctionFacts),
    /// Of one without: a row for each operation, with nothing in it.
    Nameless(Rows),
}
