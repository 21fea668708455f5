//! Questions about types (X3.159-1989 3.1.2.5 and 3.1.2.6).

ghost use Rattle.std.specs.Prelude.{◌≡◌};
ghost use Rattle.hs_operand_types.specs.Types.{designates, is_accessible, is_open, are_int, inside_both, are_compatible};
ghost use Rattle.hs_tree.specs.Kinds.{number_kind, pointed, element, is_pointer, is_scalar, is_void, is_readable};
ghost use Rattle.hs_types.specs.TypeTables.{is_complete};

use hs_types::{Integer, Row, TypeId, Types};

/// How numbers of a type are represented, or `None` if it has none. An enumeration has those of `int` (X3.159-1989 3.5.2.2).
///
/// Example: `UnsignedLong` for `unsigned long`, and `None` for `char *`.
pub fn number_kind(types: &Types, id: TypeId) -> Option<Integer>
    ensures { result ≡ number_kind types.now id }
{
    match types.row(id)? {
        Row::Integer(kind) => Some(kind),
        Row::Enumeration(_) => Some(Integer::Int),
        Row::Void
        | Row::Pointer(_)
        | Row::Struct(_)
        | Row::Array { .. }
        | Row::OpenArray(_)
        | Row::Function { .. } => None,
    }
}

/// What a pointer points to, or `None` if the type is no pointer.
///
/// Example: `char` for `char *`.
pub fn pointed(types: &Types, id: TypeId) -> Option<TypeId>
    ensures { result ≡ pointed types.now id }
{
    match types.row(id)? {
        Row::Pointer(of) => Some(of),
        Row::Void
        | Row::Integer(_)
        | Row::Enumeration(_)
        | Row::Struct(_)
        | Row::Array { .. }
        | Row::OpenArray(_)
        | Row::Function { .. } => None,
    }
}

/// The type of the elements of an array, or `None` if the type is no array.
///
/// Example: `int` for `int [3]` and for `int []`.
pub fn element(types: &Types, id: TypeId) -> Option<TypeId>
    ensures { result ≡ element types.now id }
{
    match types.row(id)? {
        Row::Array { of, .. } | Row::OpenArray(of) => Some(of),
        Row::Void
        | Row::Integer(_)
        | Row::Pointer(_)
        | Row::Enumeration(_)
        | Row::Struct(_)
        | Row::Function { .. } => None,
    }
}

/// Whether a type is a pointer.
///
/// Example: `true` for `char *`.
pub fn is_pointer(types: &Types, id: TypeId) -> bool
    ensures { result ≡ is_pointer types.now id }
{
    pointed(types, id).is_some()
}

/// Whether a type is a number or a pointer.
///
/// Example: `true` for `int` and `char *`, `false` for a struct.
pub fn is_scalar(types: &Types, id: TypeId) -> bool
    ensures { result ≡ is_scalar types.now id }
{
    number_kind(types, id).is_some() || is_pointer(types, id)
}

/// Whether a type is `void`.
pub fn is_void(types: &Types, id: TypeId) -> bool
    ensures { result ≡ is_void types.now id }
{
    match types.row(id) {
        Some(Row::Void) => true,
        Some(
            Row::Integer(_)
            | Row::Pointer(_)
            | Row::Enumeration(_)
            | Row::Struct(_)
            | Row::Array { .. }
            | Row::OpenArray(_)
            | Row::Function { .. },
        )
        | None => false,
    }
}

/// Whether the value of an object of the type can be read and written.
///
/// Example: `false` for an array.
pub fn is_readable(types: &Types, id: TypeId) -> bool
    ensures { result ≡ is_readable types.now id }
{
    match types.row(id) {
        Some(Row::Integer(_) | Row::Pointer(_) | Row::Enumeration(_)) => true,
        Some(Row::Struct(_)) => types.layout(id).is_some(),
        Some(Row::Void | Row::Array { .. } | Row::OpenArray(_) | Row::Function { .. }) | None => {
            false
        }
    }
}

/// Whether the type is complete (3.1.2.5), so that its objects have a size.
///
/// Example: `true` for `int [3]`, and `false` for `int []` and for an enumeration before its closing brace.
pub fn is_complete(types: &Types, id: TypeId) -> bool
    ensures { result ≡ is_complete types.now id }
{
    types.layout(id).is_some()
}

/// Whether the value of an object of the type can be read and written (3.2.2.1): a scalar or a struct, and complete.
///
/// Example: `false` for an array, and for an enumeration before its closing brace.
pub fn is_accessible(types: &Types, id: TypeId) -> bool
    ensures { result ≡ is_accessible types.now id }
{
    is_readable(types, id) && is_complete(types, id)
}

/// Whether an object can be of the type, or will be once the type is complete.
///
/// Example: `false` for `void` and for functions.
pub fn designates(types: &Types, id: TypeId) -> bool
    ensures { result ≡ designates types.now id }
{
    match types.row(id) {
        Some(
            Row::Integer(_)
            | Row::Pointer(_)
            | Row::Enumeration(_)
            | Row::Struct(_)
            | Row::Array { .. }
            | Row::OpenArray(_),
        ) => true,
        Some(Row::Void | Row::Function { .. }) | None => false,
    }
}

/// Whether the type is an array whose length is not known.
///
/// Example: `true` for `int []`.
pub fn is_open(types: &Types, id: TypeId) -> bool
    ensures { result ≡ is_open types.now id }
{
    match types.row(id) {
        Some(Row::OpenArray(_)) => true,
        Some(
            Row::Void
            | Row::Integer(_)
            | Row::Pointer(_)
            | Row::Enumeration(_)
            | Row::Struct(_)
            | Row::Array { .. }
            | Row::Function { .. },
        )
        | None => false,
    }
}

/// What two types point to, or the types of the elements of two arrays.
#[derive(Clone, Copy)]
pub(crate) struct Inside {
    left: TypeId,
    right: TypeId,
}

/// What must be compatible for two types to be, if they are two pointers or two arrays whose lengths do not differ.
fn inside_both(left: Option<Row>, right: Option<Row>) -> Option<Inside>
    ensures { result ≡ inside_both left right }
{
    match (left, right) {
        (Some(Row::Pointer(left)), Some(Row::Pointer(right)))
        | (Some(Row::OpenArray(left)), Some(Row::OpenArray(right)))
        | (Some(Row::Array { of: left, .. }), Some(Row::OpenArray(right)))
        | (Some(Row::OpenArray(left)), Some(Row::Array { of: right, .. })) => {
            Some(Inside { left, right })
        }
        (
            Some(
                Row::Array {
                    of: left,
                    length,
                    ..
                },
            ),
            Some(
                Row::Array {
                    of: right,
                    length: other,
                    ..
                },
            ),
        ) => {
            if length == other {
                Some(Inside { left, right })
            } else {
                None
            }
        }
        _ => None,
    }
}

/// Whether one of two types is `int` and the other an enumeration.
fn are_int(left: Option<Row>, right: Option<Row>) -> bool
    ensures { result ≡ are_int left right }
{
    match (left, right) {
        (Some(Row::Integer(kind)), Some(Row::Enumeration(_)))
        | (Some(Row::Enumeration(_)), Some(Row::Integer(kind))) => is_int(kind),
        _ => false,
    }
}

/// Whether the kind is `int`.
fn is_int(kind: Integer) -> bool
    ensures { result ≡ Rattle.hs_operand_types.specs.Types.is_int kind }
{
    match kind {
        Integer::Int => true,
        Integer::Char
        | Integer::SignedChar
        | Integer::UnsignedChar
        | Integer::Short
        | Integer::UnsignedShort
        | Integer::UnsignedInt
        | Integer::Long
        | Integer::UnsignedLong => false,
    }
}

/// Whether two types of objects are compatible (3.1.2.6).
///
/// Example: `int (*)[]` and `int (*)[3]` are, and so are `int` and an enumeration; `int` and `long` are not.
pub fn are_compatible(types: &Types, left: TypeId, right: TypeId) -> bool
    ensures { result ≡ are_compatible types.now left right }
{
    let mut more = left.number;
    let mut inside = Inside { left, right };
    'inside: loop {
        if inside.left == inside.right {
            return true;
        }
        if more == 0 {
            return false;
        }
        more -= 1;
        let left = types.row(inside.left);
        let right = types.row(inside.right);
        if are_int(left, right) {
            return true;
        }
        let Some(next) = inside_both(left, right) else {
            return false;
        };
        inside = next;
    }
}
