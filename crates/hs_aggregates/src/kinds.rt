//! Questions about types (X3.159-1989 3.1.2.5).

ghost use Rattle.std.specs.Prelude.{◌≡◌};
ghost use Rattle.hs_aggregates.specs.Aggregates.{is_character, character_row, text_kind};
ghost use Rattle.hs_tree.specs.Kinds.{element, array_length};
ghost use Rattle.hs_types.specs.TypeTables.{row_of, size_of};

use hs_operand_types::element;
use hs_types::{Integer, Row, TypeId, Types};

/// How many elements an array has, if that is known.
///
/// Example: 3 for `int [3]`, `None` for `int []`.
pub fn array_length(types: &Types, id: TypeId) -> Option<u32>
    ensures { result ≡ array_length types.now id }
{
    match types.row(id)? {
        Row::Array { length, .. } => Some(length),
        Row::Void
        | Row::Integer(_)
        | Row::Pointer(_)
        | Row::Enumeration(_)
        | Row::Struct(_)
        | Row::OpenArray(_)
        | Row::Function { .. } => None,
    }
}

/// The size of a type in bytes, or 0 if it is incomplete.
pub(crate) fn size_of(types: &Types, id: TypeId) -> u32
    ensures { result ≡ size_of types.now id }
{
    match types.layout(id) {
        Some(layout) => layout.size,
        None => 0,
    }
}

/// Whether the type is one of characters.
fn is_character(kind: Integer) -> bool
    ensures { result ≡ is_character kind }
{
    match kind {
        Integer::Char | Integer::SignedChar | Integer::UnsignedChar => true,
        Integer::Short
        | Integer::UnsignedShort
        | Integer::Int
        | Integer::UnsignedInt
        | Integer::Long
        | Integer::UnsignedLong => false,
    }
}

/// The kind of the characters, if the type is one of characters.
fn character_kind(types: &Types, id: TypeId) -> Option<Integer>
    ensures { result ≡ character_row (row_of types.now id) }
{
    match types.row(id)? {
        Row::Integer(kind) => { if is_character(kind) { Some(kind) } else { None } }
        Row::Void
        | Row::Pointer(_)
        | Row::Enumeration(_)
        | Row::Struct(_)
        | Row::Array { .. }
        | Row::OpenArray(_)
        | Row::Function { .. } => None,
    }
}

/// The kind of the characters of an array that a string can initialise, or `None` if the type is no such array.
///
/// Example: `Char` for `char [4]`.
pub fn text_kind(types: &Types, id: TypeId) -> Option<Integer>
    ensures { result ≡ text_kind types.now id }
{
    match element(types, id) {
        Some(of) => character_kind(types, of),
        None => None,
    }
}
