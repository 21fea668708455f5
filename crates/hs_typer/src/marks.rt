//! Where declarations are in their unit.

use hs_tokens::Place;
use hs_types::TypeId;

/// Where a declaration is in its unit: so many bodies of structs of the unit had begun before it, and so many declarations of the program were
/// kept.
#[derive(Clone, Copy)]
pub struct Mark {
    pub bodies: u64,
    pub declarations: u64,
}

/// A declaration of an object at file scope without an initialiser and without `extern`, whose struct has no body yet (X3.159-1989 3.7.2).
#[derive(Clone, Copy)]
pub struct Tentative {
    /// The place of the name.
    pub at: Place,
    /// Where the declaration is in its unit: of several refusals at its end, the one that is first in the text is given.
    pub mark: Mark,
    /// The type that the declaration gives the object: a struct, or an array of structs.
    pub type_id: TypeId,
}
