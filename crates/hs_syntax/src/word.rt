//! The leaves of trees: tokens with a text.

use hs_tokens::{Place, Text};

/// An identifier, a constant or a string literal: its text, whose bytes it shares with its token, and its place.
#[derive(Drop)]
pub struct Word {
    pub text: Text,
    pub place: Place,
}
