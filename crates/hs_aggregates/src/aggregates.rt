//! Aggregates, and the members and elements that a list of initialisers goes through (X3.159-1989 3.5.7).

ghost use Rattle.std.specs.Prelude.{◌≡◌, suc, Some, IfOk, slice_get};
ghost use Rattle.hs_aggregates.specs.Aggregates.{element_at, member_at, itself, next_by, next_in, advanced, fresh, takes};
ghost use Rattle.hs_tree.specs.Objects.{field_of};
ghost use Rattle.hs_types.specs.declared.row.Row.TheVariants as row;

use crate::kinds::{size_of, text_kind};
use hs_base::NoMemory;
use hs_operand_types::is_scalar;
use hs_types::{FieldId, Fields, Row, TypeId, Types};

/// The largest size of a type, in bytes.
const MOST_BYTES: u32 = 16_777_216;

/// An aggregate that a list of initialisers goes through, or a scalar in braces.
#[derive(Clone, Copy)]
pub struct Aggregate {
    /// The type of the aggregate or of the scalar.
    pub type_id: TypeId,
    /// The byte of the whole object at which it begins.
    pub offset: u32,
    /// The field that it is, if it is one.
    pub field: Option<FieldId>,
    /// How many of its members or elements have begun.
    pub begun: u32,
}

/// A part of an object that an initialiser is for: a member, an element or the object itself.
#[derive(Clone, Copy)]
pub struct Subobject {
    /// The byte of the whole object at which it begins.
    pub offset: u32,
    /// The type that an initialiser has to fit.
    pub type_id: TypeId,
    /// The field that it is, if it is one.
    pub field: Option<FieldId>,
}

/// The count after this one. There are no more than 4294967295.
///
/// Example: 1 for 0.
pub fn after(count: u32) -> Result<u32, NoMemory>
    ensures { IfOk result (λ next. next ≡ suc count) }
{
    count.checked_add(1).ok_or(NoMemory)
}

/// The next element of an array, at its byte.
fn element_at(types: &Types, it: Aggregate, of: TypeId) -> Result<Subobject, NoMemory>
    ensures { IfOk result (λ next. next ≡ element_at types.now it of) }
{
    let bytes = it.begun.checked_mul(size_of(types, of)).ok_or(NoMemory)?;
    let offset = it.offset.checked_add(bytes).ok_or(NoMemory)?;
    Ok(Subobject {
        offset,
        type_id: of,
        field: None,
    })
}

/// The field of that name among the fields of its struct, at its byte.
fn member_in(it: Aggregate, id: FieldId, fields: &Fields) -> Result<Option<Subobject>, NoMemory>
    ensures { IfOk result (λ next. next ≡ member_at it id (slice_get fields.now id.place)) }
{
    let Some(field) = fields.items().get(id.place as usize) else {
        return Ok(None);
    };
    let offset = it.offset.checked_add(field.offset).ok_or(NoMemory)?;
    Ok(Some(Subobject {
        offset,
        type_id: field.type_id,
        field: Some(id),
    }))
}

/// The field of that name, at its byte.
fn member_at(types: &Types, it: Aggregate, id: FieldId) -> Result<Option<Subobject>, NoMemory>
    ensures { IfOk result (λ next. next ≡ member_at it id (field_of types.now id)) }
{
    match types.body(id.of) {
        Some(body) => member_in(it, id, &body.fields),
        None => Ok(None),
    }
}

/// A scalar in braces, once.
fn itself(it: Aggregate) -> Option<Subobject>
    ensures { result ≡ itself it }
{
    if it.begun == 0 {
        Some(Subobject {
            offset: it.offset,
            type_id: it.type_id,
            field: it.field,
        })
    } else {
        None
    }
}

/// The next element of an array whose length is not known. It has as many as a type may have bytes for.
fn next_open(types: &Types, it: Aggregate, of: TypeId) -> Result<Option<Subobject>, NoMemory>
    ensures { IfOk result (λ next. next ≡ next_by types.now it (Some (row.OpenArray of))) }
{
    let bytes = after(it.begun)?
        .checked_mul(size_of(types, of))
        .ok_or(NoMemory)?;
    if bytes > MOST_BYTES {
        return Ok(None);
    }
    Ok(Some(element_at(types, it, of)?))
}

/// The next member or element of an aggregate, if there is one more.
pub(crate) fn next_in(types: &Types, it: Aggregate) -> Result<Option<Subobject>, NoMemory>
    ensures { IfOk result (λ next. next ≡ next_in types.now it) }
{
    match types.row(it.type_id) {
        Some(Row::Integer(_) | Row::Pointer(_) | Row::Enumeration(_)) => Ok(itself(it)),
        Some(Row::Struct(of)) => {
            let place = it.begun;
            member_at(types, it, FieldId { of, place })
        }
        Some(Row::Array { of, length, .. }) => {
            if it.begun >= length {
                return Ok(None);
            }
            Ok(Some(element_at(types, it, of)?))
        }
        Some(Row::OpenArray(of)) => next_open(types, it, of),
        Some(Row::Void | Row::Function { .. }) | None => Ok(None),
    }
}

/// The aggregate, with one more begun.
pub(crate) fn advanced(it: Aggregate) -> Result<Aggregate, NoMemory>
    ensures { IfOk result (λ next. next ≡ advanced it) }
{
    let begun = after(it.begun)?;
    Ok(Aggregate { begun, ..it })
}

/// The aggregate of which nothing has begun.
///
/// Example: none of its members has begun.
pub fn fresh(it: Subobject) -> Aggregate
    ensures { result ≡ fresh it }
{
    Aggregate {
        type_id: it.type_id,
        offset: it.offset,
        field: it.field,
        begun: 0,
    }
}

/// Whether an expression initialises it: a scalar, or an array of characters and a string.
///
/// Example: `true` for a scalar, and for an array of characters if there is a string.
pub fn takes(types: &Types, text: bool, it: Subobject) -> bool
    ensures { result ≡ takes types.now text it }
{
    is_scalar(types, it.type_id) || (text && text_kind(types, it.type_id).is_some())
}
