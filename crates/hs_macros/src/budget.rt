//! What is left of the limits of replacement.

/// What is left of two limits.
#[derive(Clone, Copy)]
pub struct Budget {
    /// Replacements that may still be done.
    pub replacements: u64,
    /// Tokens that they may still put in place.
    pub tokens: u64,
}
