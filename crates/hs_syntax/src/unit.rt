//! Trees of units (X3.159-1989 3.7).

use crate::{Block, Decl, Declarator, Specifier};

/// An external declaration (X3.159-1989 3.7).
#[derive(Drop)]
pub enum External {
    Function {
        specifiers: Vec<Specifier>,
        declarator: Declarator,
        body: Block,
    },
    Declaration(Decl),
}

/// A translation unit.
#[derive(Drop)]
pub struct Unit {
    pub externals: Vec<External>,
}
