//! Constants, and what objects start with (X3.159-1989 3.4 and 3.5.7).

ghost use Rattle.std.specs.Prelude.{◌≡◌};

use hs_types::{FieldId, TypeId};
use std::marker::Model;

/// An object of static storage duration that an address constant points into.
#[derive(Clone, Copy, PartialEq, Eq)]
pub enum Base {
    /// A file-scope object or a static local, by its place among those of the program.
    Global(u32),
    /// A string literal, by its place among those of the program.
    Literal(u32),
}

/// The value of a constant expression (3.4).
#[derive(Clone, Copy, PartialEq, Eq)]
pub enum Constant {
    /// A number, as 32 bits.
    Number(u32),
    /// The null pointer.
    Nil,
    /// An address constant: an object, and the byte from its start.
    Address { base: Base, offset: i32 },
}

/// What one scalar of an object starts with.
#[derive(Clone, Copy)]
pub struct Part {
    /// The byte of the object at which the scalar lies.
    pub offset: u32,
    /// Its type.
    pub type_id: TypeId,
    /// The field that the scalar is, if it is one.
    pub field: Option<FieldId>,
    pub value: Constant,
}

/// What the scalars of an object start with, by ascending offsets; those that are not named start as zero. Contracts see the list.
#[derive(Drop)]
pub struct Parts {
    vec: Vec<Part>,
}

impl Model for Parts {
    ghost use Rattle.std.specs.Prelude.{List};
    ghost use Rattle.hs_tree.specs.declared.constant.Part.{Part};

    ghost Value = { List Part };

    ghost view = { λ it. it.vec.items };
}

impl Parts {
    /// The list of these items. Takes no memory.
    pub fn from_vec(items: Vec<Part>) -> Parts
        ensures { result ≡ items.items }
    {
        Parts { vec: items }
    }

    /// Lends the items.
    pub fn items(&self) -> &[Part]
        ensures { result.now ≡ self.now }
    {
        self.vec.as_slice()
    }
}
