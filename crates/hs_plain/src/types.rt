//! What a plain routine asks of types.

ghost use Rattle.std.specs.Prelude.{◌≡◌};
ghost use Rattle.hs_meaning.specs.Plain.{is_signed_kind, points_to_pointer};
ghost use Rattle.hs_tree.specs.Kinds.{number_kind, pointed, size_at};

use hs_types::{Integer, Row, TypeId, Types};

/// The integer type whose numbers the values of the type are, if it is an integer type or an enumeration.
pub fn number_kind(types: &Types, id: TypeId) -> Option<Integer>
    ensures { result ≡ number_kind types.now id }
{
    match types.row(id)? {
        Row::Integer(kind) => Some(kind),
        Row::Enumeration(_) => Some(Integer::Int),
        Row::Void
        | Row::Pointer(_)
        | Row::Struct(_)
        | Row::Array { .. }
        | Row::OpenArray(_)
        | Row::Function { .. } => None,
    }
}

/// Whether the type has numbers below 0.
pub(crate) fn is_signed(types: &Types, id: TypeId) -> bool
    ensures { result ≡ is_signed_kind (number_kind types.now id) }
{
    match number_kind(types, id) {
        Some(kind) => kind.is_signed(),
        None => false,
    }
}

/// What the type points to, if it is one of pointers.
pub(crate) fn pointed(types: &Types, id: TypeId) -> Option<TypeId>
    ensures { result ≡ pointed types.now id }
{
    match types.row(id)? {
        Row::Pointer(of) => Some(of),
        Row::Void
        | Row::Integer(_)
        | Row::Enumeration(_)
        | Row::Struct(_)
        | Row::Array { .. }
        | Row::OpenArray(_)
        | Row::Function { .. } => None,
    }
}

/// The size of a type in bytes, if there is one and it is complete.
pub(crate) fn size_at(types: &Types, id: Option<TypeId>) -> Option<u32>
    ensures { result ≡ size_at types.now id }
{
    Some(types.layout(id?)?.size)
}
