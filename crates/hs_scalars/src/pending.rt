//! A part of an object whose scalars are still to come.

ghost use Rattle.std.specs.Prelude.{◌≡◌, ◌≤◌, ◌<◌, ◌+◌, drop, IfOk, option_map, slice_get};
ghost use Rattle.hs_meaning.specs.Scalars.{found_within, of_row, of_elements, of_fields};
ghost use Rattle.hs_types.specs.TypeTables.{row_of, size_of};
ghost use Rattle.hs_scalars.specs.Left.{of_pending, of_opened, fields_of, place_of, weight, weight_of_opened, weight_of_row, weight_of_elements, weight_of_fields, weight_within};

use crate::Scalar;
use hs_base::NoMemory;
use hs_types::{FieldId, Row, TypeId, Types};

/// A part of an object whose scalars are still to come, down to so many types inside one another.
#[derive(Clone, Copy)]
pub(crate) enum Pending {
    /// An object of a type at that byte.
    One {
        levels: u32,
        at: u32,
        type_id: TypeId,
        field: Option<FieldId>,
    },
    /// So many elements of an array, each of that size, the first at that byte.
    Elements {
        levels: u32,
        of: TypeId,
        size: u32,
        at: u32,
        more: u32,
    },
    /// The fields of a struct at that byte, from that place on.
    Fields {
        levels: u32,
        at: u32,
        number: u32,
        place: u32,
    },
}

/// What a pending part is made of.
#[derive(Clone, Copy)]
pub(crate) enum Opened {
    /// It has no scalars.
    Empty,
    /// It is a scalar.
    Found(Scalar),
    /// It is a list of parts.
    List(Pending),
    /// It is a part and those after it.
    Parts { first: Pending, rest: Pending },
}

/// Where a field lies in its struct, and its type.
#[derive(Clone, Copy)]
pub(crate) struct Place {
    pub(crate) offset: u32,
    pub(crate) type_id: TypeId,
}

/// The size of a type in bytes, or 0 if it is incomplete.
fn size_of(types: &Types, type_id: TypeId) -> u32
    ensures { result ≡ size_of types.now type_id }
{
    match types.layout(type_id) {
        Some(layout) => layout.size,
        None => 0,
    }
}

/// The sum of two numbers. An object that has so many bytes does not fit in memory.
fn sum(first: u32, second: u32) -> Result<u32, NoMemory>
    ensures { IfOk result (λ its. its ≡ first + second) }
{
    match first.checked_add(second) {
        Some(its) => Ok(its),
        None => Err(NoMemory),
    }
}

/// The field of that place in the struct of that number, if it has one.
fn field_at(types: &Types, number: u32, place: u32) -> Option<Place>
    ensures { result ≡ option_map place_of (slice_get (fields_of types.now number) place) }
{
    let body = types.body(number)?;
    let field = body.fields.items().get(place as usize)?;
    Some(Place {
        offset: field.offset,
        type_id: field.type_id,
    })
}

/// What an object of a type at that byte is made of.
fn opened_object(
    types: &Types,
    levels: u32,
    at: u32,
    type_id: TypeId,
    field: Option<FieldId>,
) -> Opened
    ensures same { of_opened types.now result
        ≡ of_row (found_within levels types.now) types.now at type_id field (row_of types.now type_id) }
    ensures falls { weight_of_opened types.now result
        ≤ weight_of_row (weight_within levels types.now) types.now (row_of types.now type_id) }
{
    match types.row(type_id) {
        Some(Row::Integer(_) | Row::Pointer(_) | Row::Enumeration(_)) => Opened::Found(Scalar {
            offset: at,
            type_id,
            field,
        }),
        Some(Row::Struct(number)) => Opened::List(Pending::Fields {
            levels,
            at,
            number,
            place: 0,
        }),
        Some(Row::Array { of, length, .. }) => Opened::List(Pending::Elements {
            levels,
            of,
            size: size_of(types, of),
            at,
            more: length,
        }),
        Some(Row::Void | Row::OpenArray(_) | Row::Function { .. }) | None => Opened::Empty,
    }
}

/// What some elements of an array are made of.
fn opened_elements(
    types: &Types,
    levels: u32,
    of: TypeId,
    size: u32,
    at: u32,
    more: u32,
) -> Result<Opened, NoMemory>
    ensures same { IfOk result (λ its. of_opened types.now its
        ≡ of_elements (found_within levels types.now) of size at more) }
    ensures falls { IfOk result (λ its. weight_of_opened types.now its
        < weight_of_elements (weight_within levels types.now of) more) }
{
    if more == 0 {
        return Ok(Opened::Empty);
    }
    let rest = Pending::Elements {
        levels,
        of,
        size,
        at: sum(at, size)?,
        more: more - 1,
    };
    let first = Pending::One {
        levels,
        at,
        type_id: of,
        field: None,
    };
    Ok(Opened::Parts { first, rest })
}

/// What the fields of a struct from a place on are made of.
fn opened_fields(
    types: &Types,
    levels: u32,
    at: u32,
    number: u32,
    place: u32,
) -> Result<Opened, NoMemory>
    ensures same { IfOk result (λ its. of_opened types.now its
        ≡ of_fields (found_within levels types.now) at number place (drop place (fields_of types.now number))) }
    ensures falls { IfOk result (λ its. weight_of_opened types.now its
        < weight_of_fields (weight_within levels types.now) (drop place (fields_of types.now number))) }
{
    let Some(field) = field_at(types, number, place) else {
        return Ok(Opened::Empty);
    };
    let rest = Pending::Fields {
        levels,
        at,
        number,
        place: sum(place, 1)?,
    };
    let first = Pending::One {
        levels,
        at: sum(at, field.offset)?,
        type_id: field.type_id,
        field: Some(FieldId { of: number, place }),
    };
    Ok(Opened::Parts { first, rest })
}

impl Pending {
    /// What the part is made of. Fails if a sum of bytes passes 4294967295.
    pub(crate) fn opened(self, types: &Types) -> Result<Opened, NoMemory>
        ensures same { IfOk result (λ its. of_opened types.now its ≡ of_pending types.now self) }
        ensures falls { IfOk result (λ its.
            weight_of_opened types.now its < weight types.now self) }
    {
        match self {
            Pending::One {
                levels,
                at,
                type_id,
                field,
            } => {
                if levels == 0 {
                    return Ok(Opened::Empty);
                }
                Ok(opened_object(types, levels - 1, at, type_id, field))
            }
            Pending::Elements {
                levels,
                of,
                size,
                at,
                more,
            } => opened_elements(types, levels, of, size, at, more),
            Pending::Fields {
                levels,
                at,
                number,
                place,
            } => opened_fields(types, levels, at, number, place),
        }
    }
}
