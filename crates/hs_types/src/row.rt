//! Types as rows of a table, and the numbers that name them.

ghost use Rattle.std.specs.Prelude.{◌≡◌};
ghost use Rattle.hs_types.specs.Rows.{void_id, integer_id, char_pointer_id, char_handle_id};

use crate::{Integer, Layout};

/// Names a type: its row in the table of types. Two types are the same if their numbers are.
#[derive(Clone, Copy, Debug, PartialEq, Eq, Hash)]
pub struct TypeId {
    pub number: u32,
}

/// Names a list of parameter types: its row in the table of such lists.
#[derive(Clone, Copy, PartialEq, Eq, Hash)]
pub struct ListId {
    pub number: u32,
}

/// Names a field: the number of its struct, and its place among the fields, from 0.
#[derive(Clone, Copy, Debug, PartialEq, Eq, Hash)]
pub struct FieldId {
    pub of: u32,
    pub place: u32,
}

/// A type (X3.159-1989 3.1.2.5), without the qualifiers, which mean nothing here.
#[derive(Clone, Copy, PartialEq, Eq, Hash)]
pub enum Row {
    Void,
    Integer(Integer),
    Pointer(TypeId),
    /// An enumeration, by its number.
    Enumeration(u32),
    /// A struct, by its number.
    Struct(u32),
    /// An array of this many elements, and what the whole array takes in memory.
    Array {
        of: TypeId,
        length: u32,
        layout: Layout,
    },
    /// An array whose length is not known.
    OpenArray(TypeId),
    Function {
        result: TypeId,
        parameters: ListId,
    },
}

/// The types of the parameters of a function: the first, and the list of the others.
#[derive(Clone, Copy, PartialEq, Eq, Hash)]
pub enum Parameters {
    Empty,
    More { first: TypeId, others: ListId },
}

impl TypeId {
    /// The type `void`.
    pub fn void() -> TypeId
        ensures { result ≡ void_id }
    {
        TypeId { number: 0 }
    }

    /// An integer type.
    pub fn integer(kind: Integer) -> TypeId
        ensures { result ≡ integer_id kind }
    {
        let number = match kind {
            Integer::Char => 1,
            Integer::SignedChar => 2,
            Integer::UnsignedChar => 3,
            Integer::Short => 4,
            Integer::UnsignedShort => 5,
            Integer::Int => 6,
            Integer::UnsignedInt => 7,
            Integer::Long => 8,
            Integer::UnsignedLong => 9,
        };
        TypeId { number }
    }

    /// The type `char *`.
    pub fn char_pointer() -> TypeId
        ensures { result ≡ char_pointer_id }
    {
        TypeId { number: 10 }
    }

    /// The type `char **`, of a handle whose block holds characters.
    pub fn char_handle() -> TypeId
        ensures { result ≡ char_handle_id }
    {
        TypeId { number: 11 }
    }
}
