//! Objects that expressions designate, their values and their addresses (X3.159-1989 3.2.2.1, 3.3.2 and 3.3.3).

ghost use Rattle.std.specs.Prelude.{◌≡◌, ◌≤◌, IfOk, length};
ghost use Rattle.hs_operand_types.specs.Answers.{Gives, Changes};
ghost use Rattle.hs_operands.specs.Objects.{loaded, loaded_as, object_of, target_of, element_of, found_place, found_at, found_behind, member_of, arrow_of, address_of, size_number, size_of_operand};
ghost use Rattle.hs_operand_types.specs.Operands.{view_operand};
ghost use Rattle.hs_tree.specs.Kinds.{element, pointed};
ghost use Rattle.hs_types.specs.Members.{field_place};
ghost use Rattle.hs_tree.specs.Trees.{type_of_left};
ghost use Rattle.hs_tree.specs.Views.{view_right, view_left};

use crate::spacing::spacing_of;
use hs_base::NoMemory;
use hs_operand_types::{Operand, OperandEnd, designates, element, is_accessible, pointed};
use hs_tokens::Place;
use hs_tree::{Head, Lvalue, Rvalue};
use hs_types::{FieldId, Fields, Integer, Row, TypeId, Types};
use std::alloc::Global;

/// The value of an operand (3.2.2.1): an array as the address of its first element, any other object as what is stored in it. A
/// function is refused at its name, and an object whose value cannot be read at its position.
pub fn loaded(alloc: Global, types: &mut Types, operand: Operand) -> Result<Box<Rvalue>, OperandEnd>
    ensures { Changes (λ it. view_right it.value) types.new (loaded types.old (view_operand operand)) result }
{
    match operand {
        Operand::Value(value) => Ok(value),
        Operand::Object(object) => loaded_object(alloc, types, object),
        Operand::Function(it) => Err(OperandEnd::Untyped(it.head.at)),
    }
}

/// The value of an object.
fn loaded_object(
    alloc: Global,
    types: &mut Types,
    object: Box<Lvalue>,
) -> Result<Box<Rvalue>, OperandEnd>
    ensures { Changes (λ it. view_right it.value) types.new
        (loaded_as types.old (view_left object.value) (element types.old (type_of_left (view_left object.value)))) result }
{
    let head = object.head();
    if let Some(of) = element(types, head.type_id) {
        let type_id = types.add(Row::Pointer(of))?;
        let head = Head {
            at: head.at,
            type_id,
        };
        return Ok(Box::new(
            alloc,
            Rvalue::Decay {
                head,
                array: object,
            },
        )?);
    }
    if !is_accessible(types, head.type_id) {
        return Err(OperandEnd::Untyped(head.at));
    }
    Ok(Box::new(alloc, Rvalue::Load { head, object })?)
}

/// The object that an operand designates. A function is refused at its name, and a value at `at`.
pub fn object_of(at: Place, operand: Operand) -> Result<Box<Lvalue>, OperandEnd>
    ensures { Gives (λ it. view_left it.value) (object_of at (view_operand operand)) result }
{
    match operand {
        Operand::Value(_) => Err(OperandEnd::Untyped(at)),
        Operand::Object(object) => Ok(object),
        Operand::Function(it) => Err(OperandEnd::Untyped(it.head.at)),
    }
}

/// `*e` (3.3.3.2). Refused if the operand is no pointer, or if no object can be of the type that it points to.
pub fn target(
    alloc: Global,
    types: &Types,
    at: Place,
    pointer: Box<Rvalue>,
) -> Result<Box<Lvalue>, OperandEnd>
    ensures { Gives (λ it. view_left it.value) (target_of types.now at (view_right pointer.value)) result }
{
    let Some(of) = pointed(types, pointer.head().type_id) else {
        return Err(OperandEnd::Untyped(at));
    };
    if !designates(types, of) {
        return Err(OperandEnd::Untyped(at));
    }
    let head = Head { at, type_id: of };
    Ok(Box::new(alloc, Lvalue::Target { head, pointer })?)
}

/// `a[b]` (3.3.2.1), in either order of the pointer and the number.
pub fn element_of(
    alloc: Global,
    types: &Types,
    at: Place,
    left: Box<Rvalue>,
    right: Box<Rvalue>,
) -> Result<Box<Lvalue>, OperandEnd>
    ensures { Gives (λ it. view_left it.value) (element_of types.now at (view_right left.value) (view_right right.value)) result }
{
    let Some(it) = spacing_of(types, left.head().type_id, right.head().type_id) else {
        return Err(OperandEnd::Untyped(at));
    };
    let head = Head { at, type_id: it.of };
    let made = Lvalue::Element {
        head,
        size: it.size,
        pointer_first: it.pointer_first,
        left,
        right,
    };
    Ok(Box::new(alloc, made)?)
}

/// A field of a struct: which one it is, its type, and the byte at which it lies.
#[derive(Clone, Copy)]
struct Found {
    field: FieldId,
    type_id: TypeId,
    offset: u32,
}

/// The field of that name in a struct, if the type is a struct whose body has come and has such a field.
fn found_at(types: &Types, name: &[u8], id: TypeId) -> Option<Found>
    ensures { result ≡ found_at types.now name.now id }
{
    match types.row(id)? {
        Row::Struct(number) => {
            let body = types.body(number)?;
            found_in(number, name, &body.fields)
        }
        Row::Void
        | Row::Integer(_)
        | Row::Pointer(_)
        | Row::Enumeration(_)
        | Row::Array { .. }
        | Row::OpenArray(_)
        | Row::Function { .. } => None,
    }
}

/// The field of that name among the fields of the struct of that number.
fn found_in(number: u32, name: &[u8], fields: &Fields) -> Option<Found>
    ensures { result ≡ found_place number fields.now (field_place name.now fields.now) }
{
    let place = fields.place(name)?;
    let field = fields.items().get(place as usize)?;
    Some(Found {
        field: FieldId { of: number, place },
        type_id: field.type_id,
        offset: field.offset,
    })
}

/// The field of that name in the struct that a pointer points to.
fn found_behind(types: &Types, name: &[u8], pointer: TypeId) -> Option<Found>
    ensures { result ≡ found_behind types.now name.now (pointed types.now pointer) }
{
    let of = pointed(types, pointer)?;
    found_at(types, name, of)
}

/// `e.f` (3.3.2.3). Refused if the object is no struct with its body, or has no such member.
pub fn member(
    alloc: Global,
    types: &Types,
    at: Place,
    name: &[u8],
    object: Box<Lvalue>,
) -> Result<Box<Lvalue>, OperandEnd>
    ensures { Gives (λ it. view_left it.value) (member_of types.now at name.now (view_left object.value)) result }
{
    let Some(found) = found_at(types, name, object.head().type_id) else {
        return Err(OperandEnd::Untyped(at));
    };
    let head = Head {
        at,
        type_id: found.type_id,
    };
    let made = Lvalue::Member {
        head,
        field: found.field,
        offset: found.offset,
        object,
    };
    Ok(Box::new(alloc, made)?)
}

/// `e->f` (3.3.2.3). Refused if the operand is no pointer to a struct with its body, or if that has no such member.
pub fn arrow(
    alloc: Global,
    types: &Types,
    at: Place,
    name: &[u8],
    pointer: Box<Rvalue>,
) -> Result<Box<Lvalue>, OperandEnd>
    ensures { Gives (λ it. view_left it.value) (arrow_of types.now at name.now (view_right pointer.value)) result }
{
    let Some(found) = found_behind(types, name, pointer.head().type_id) else {
        return Err(OperandEnd::Untyped(at));
    };
    let head = Head {
        at,
        type_id: found.type_id,
    };
    let made = Lvalue::Arrow {
        head,
        field: found.field,
        offset: found.offset,
        pointer,
    };
    Ok(Box::new(alloc, made)?)
}

/// `&e` of an object (3.3.3.2).
pub fn address(
    alloc: Global,
    types: &mut Types,
    at: Place,
    object: Box<Lvalue>,
) -> Result<Box<Rvalue>, NoMemory>
    ensures { IfOk result (λ it. address_of types.old at (view_left object.value) ≡ (view_right it.value, types.new)) }
{
    let type_id = types.add(Row::Pointer(object.head().type_id))?;
    let head = Head { at, type_id };
    Ok(Box::new(alloc, Rvalue::Address { head, object })?)
}

/// The size of a type as `sizeof` gives it (3.3.3.4): an `unsigned long`. Refused if the type is incomplete.
pub fn size_number(
    alloc: Global,
    types: &Types,
    at: Place,
    id: TypeId,
) -> Result<Box<Rvalue>, OperandEnd>
    ensures { Gives (λ it. view_right it.value) (size_number types.now at id) result }
{
    let Some(layout) = types.layout(id) else {
        return Err(OperandEnd::Untyped(at));
    };
    let head = Head {
        at,
        type_id: TypeId::integer(Integer::UnsignedLong),
    };
    let made = Rvalue::Number {
        head,
        bits: layout.size,
    };
    Ok(Box::new(alloc, made)?)
}

/// The size of an operand, which is not evaluated (3.3.3.4). A function is refused at its name.
pub fn size_of_operand(
    alloc: Global,
    types: &Types,
    at: Place,
    operand: Operand,
) -> Result<Box<Rvalue>, OperandEnd>
    ensures { Gives (λ it. view_right it.value) (size_of_operand types.now at (view_operand operand)) result }
{
    match operand {
        Operand::Value(e) => size_number(alloc, types, at, e.head().type_id),
        Operand::Object(object) => size_number(alloc, types, at, object.head().type_id),
        Operand::Function(it) => Err(OperandEnd::Untyped(it.head.at)),
    }
}
