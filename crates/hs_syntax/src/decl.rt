//! Trees of declarations (X3.159-1989 3.5).

use crate::{Declarator, Expr, Specifier};
use hs_tokens::Place;

/// What a variable starts with (X3.159-1989 3.5.7).
#[derive(Drop)]
pub enum Initialiser {
    Value(Expr),
    /// A list in braces, and the place of its `{`; a comma may end the list.
    List {
        at: Place,
        values: Vec<Initialiser>,
        comma: bool,
    },
}

/// A declarator of a declaration, and what it starts with.
#[derive(Drop)]
pub struct Item {
    pub declarator: Declarator,
    pub initialiser: Option<Initialiser>,
}

/// A declaration (3.5).
#[derive(Drop)]
pub struct Decl {
    pub specifiers: Vec<Specifier>,
    pub items: Vec<Item>,
}
