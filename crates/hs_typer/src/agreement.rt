//! Which types of several units are one (X3.159-1989 3.1.2.6).

ghost use Rattle.std.specs.Prelude.{◌≡◌, ◌==◌, ◌&&◌, IfSome, IfNone, option_copied, slice_get};
ghost use Rattle.hs_operand_types.specs.Types.{is_int, are_int};
ghost use Rattle.hs_typer.specs.Origins.{are_one_brace, stands_for, origins_agree, has_body, structs_agree, brace_in, enumerations_agree, leaves_agree, objects_agree, lists_agree, agree, are_half_open, are_two, mix, members_agree, fields_agree, enumerators_agree, tags_agree, first_field, first_enumerator, first_name};
ghost use Rattle.hs_typer.specs.Pairs.{IsInside, AreApart, both_end, both_more};

use crate::{Brace, Origin, Origins, Tag};
use hs_types::{Enumerator, Field, Integer, ListId, Parameters, Row, TypeId, Types};

/// Whether both braces are there, and the same.
fn are_one_brace(a: Option<Brace>, b: Option<Brace>) -> bool
    ensures { result ≡ are_one_brace a b }
{
    match (a, b) {
        (Some(one), Some(other)) => one == other,
        (None, _) | (Some(_), None) => false,
    }
}

/// Whether one struct stands for both.
fn stand_together(origins: &Origins, a: u32, b: u32) -> bool
    ensures { result ≡ (stands_for origins.now a == stands_for origins.now b) }
{
    let first = origins.stands_for(a);
    let second = origins.stands_for(b);
    first == second
}

/// Whether structs of these origins are one type: their bodies begin at one brace, or they are of two units, do not both have their bodies, and
/// one struct stands for both.
fn origins_agree(
    origins: &Origins,
    complete: bool,
    a: u32,
    b: u32,
    first: Option<&Origin>,
    second: Option<&Origin>,
) -> bool
    ensures { result ≡ origins_agree origins.now complete a b (option_copied first.entry) (option_copied second.entry) }
{
    match (first, second) {
        (Some(one), Some(other)) => {
            are_one_brace(one.brace, other.brace)
                || (one.unit != other.unit && !complete && stand_together(origins, a, b))
        }
        (None, _) | (Some(_), None) => false,
    }
}

/// Whether both structs have their bodies.
fn have_bodies(types: &Types, a: u32, b: u32) -> bool
    ensures { result ≡ (has_body types.now a && has_body types.now b) }
{
    match (types.body(a), types.body(b)) {
        (Some(_), Some(_)) => true,
        (None, _) | (Some(_), None) => false,
    }
}

/// Whether two structs are one type, or may be.
fn structs_agree(types: &Types, origins: &Origins, a: u32, b: u32) -> bool
    ensures { result ≡ structs_agree types.now origins.now a b }
{
    let complete = have_bodies(types, a, b);
    a == b
        || origins_agree(
            origins,
            complete,
            a,
            b,
            origins.structs.get(a),
            origins.structs.get(b),
        )
}

/// Where the body of that enumeration begins, if it begins in a file.
fn brace_in(origins: &Origins, number: u32) -> Option<Brace>
    ensures { result ≡ brace_in (slice_get origins.now.enumerations number) }
{
    match origins.enumerations.get(number) {
        Some(its) => *its,
        None => None,
    }
}

/// Whether two enumerations are one type.
fn enumerations_agree(origins: &Origins, a: u32, b: u32) -> bool
    ensures { result ≡ enumerations_agree origins.now a b }
{
    a == b || are_one_brace(brace_in(origins, a), brace_in(origins, b))
}

/// Whether two types that are no pointers, arrays or functions are compatible.
fn leaves_agree(types: &Types, origins: &Origins, a: Option<Row>, b: Option<Row>) -> bool
    ensures { result ≡ leaves_agree types.now origins.now a b }
{
    match (a, b) {
        (Some(Row::Struct(one)), Some(Row::Struct(other))) => {
            structs_agree(types, origins, one, other)
        }
        (Some(Row::Enumeration(one)), Some(Row::Enumeration(other))) => {
            enumerations_agree(origins, one, other)
        }
        (Some(Row::Integer(kind)), Some(Row::Enumeration(_)))
        | (Some(Row::Enumeration(_)), Some(Row::Integer(kind))) => is_int(kind),
        _ => false,
    }
}

/// Whether the kind is `int`.
fn is_int(kind: Integer) -> bool
    ensures { result ≡ is_int kind }
{
    match kind {
        Integer::Int => true,
        Integer::Char
        | Integer::SignedChar
        | Integer::UnsignedChar
        | Integer::Short
        | Integer::UnsignedShort
        | Integer::UnsignedInt
        | Integer::Long
        | Integer::UnsignedLong => false,
    }
}

/// Two types, or what is inside them.
#[derive(Clone, Copy)]
pub(crate) struct Pair {
    left: TypeId,
    right: TypeId,
}

/// What must be compatible for two types to be, if they are two pointers or two arrays whose lengths do not differ.
fn inside_both(left: Option<Row>, right: Option<Row>) -> Option<Pair>
    ensures inside { IfSome result (IsInside left right) }
    ensures apart { IfNone result (AreApart left right) }
{
    match (left, right) {
        (Some(Row::Pointer(left)), Some(Row::Pointer(right)))
        | (Some(Row::OpenArray(left)), Some(Row::OpenArray(right)))
        | (Some(Row::Array { of: left, .. }), Some(Row::OpenArray(right)))
        | (Some(Row::OpenArray(left)), Some(Row::Array { of: right, .. })) => {
            Some(Pair { left, right })
        }
        (
            Some(
                Row::Array {
                    of: left,
                    length,
                    ..
                },
            ),
            Some(
                Row::Array {
                    of: right,
                    length: other,
                    ..
                },
            ),
        ) => {
            if length == other {
                Some(Pair { left, right })
            } else {
                None
            }
        }
        _ => None,
    }
}

/// Whether two types of objects are compatible.
fn objects_agree(types: &Types, origins: &Origins, a: TypeId, b: TypeId) -> bool
    ensures { result ≡ objects_agree types.now origins.now a b }
{
    let mut more = a.number;
    let mut inside = Pair { left: a, right: b };
    'inside: loop {
        if inside.left == inside.right {
            return true;
        }
        if more == 0 {
            return false;
        }
        more -= 1;
        let left = types.row(inside.left);
        let right = types.row(inside.right);
        if leaves_agree(types, origins, left, right) {
            return true;
        }
        let Some(next) = inside_both(left, right) else {
            return false;
        };
        inside = next;
    }
}

/// The first of each of two lists of parameters, and the others.
#[derive(Clone, Copy)]
pub(crate) struct Firsts {
    left: TypeId,
    right: TypeId,
    left_others: ListId,
    right_others: ListId,
}

/// The first of each list, if neither is at its end.
fn both_more(left: Option<Parameters>, right: Option<Parameters>) -> Option<Firsts>
    ensures { result ≡ both_more left right }
{
    match (left, right) {
        (
            Some(
                Parameters::More {
                    first: left,
                    others: left_others,
                },
            ),
            Some(
                Parameters::More {
                    first: right,
                    others: right_others,
                },
            ),
        ) => Some(Firsts {
            left,
            right,
            left_others,
            right_others,
        }),
        _ => None,
    }
}

/// Whether both lists are at their end.
fn both_end(left: Option<Parameters>, right: Option<Parameters>) -> bool
    ensures { result ≡ both_end left right }
{
    match (left, right) {
        (Some(Parameters::Empty), Some(Parameters::Empty)) => true,
        _ => false,
    }
}

/// Whether two lists of parameters have as many, each of a compatible type (3.5.4.3).
fn lists_agree(types: &Types, origins: &Origins, a: ListId, b: ListId) -> bool
    ensures { result ≡ lists_agree types.now origins.now a b }
{
    let mut more = a.number;
    let mut left = a;
    let mut right = b;
    'lists: loop {
        let first = types.parameters(left);
        let second = types.parameters(right);
        if both_end(first, second) {
            return true;
        }
        let Some(next) = both_more(first, second) else {
            return false;
        };
        if !objects_agree(types, origins, next.left, next.right) {
            return false;
        }
        if more == 0 {
            return false;
        }
        more -= 1;
        left = next.left_others;
        right = next.right_others;
    }
}

/// Whether two types are compatible, in one unit or in two (3.1.2.6). Structs and enumerations of several units are one type if their
/// bodies begin at one brace. A struct without its body is compatible with the same tag of another unit.
///
/// Example: `int (*)[]` and `int (*)[3]` are, and so is `struct S` of two units that include one header.
pub fn agree(types: &Types, origins: &Origins, a: TypeId, b: TypeId) -> bool
    ensures { result ≡ agree types.now origins.now a b }
{
    match (types.row(a), types.row(b)) {
        (
            Some(
                Row::Function {
                    result: one,
                    parameters,
                },
            ),
            Some(
                Row::Function {
                    result: other,
                    parameters: others,
                },
            ),
        ) => {
            objects_agree(types, origins, one, other)
                && lists_agree(types, origins, parameters, others)
        }
        _ => objects_agree(types, origins, a, b),
    }
}

/// Whether one of two types is `int` and the other an enumeration.
fn are_int(left: Option<Row>, right: Option<Row>) -> bool
    ensures { result ≡ are_int left right }
{
    match (left, right) {
        (Some(Row::Integer(kind)), Some(Row::Enumeration(_)))
        | (Some(Row::Enumeration(_)), Some(Row::Integer(kind))) => is_int(kind),
        _ => false,
    }
}

/// Whether one of two types is an array without its length, and the other one with it.
fn are_half_open(left: Option<Row>, right: Option<Row>) -> bool
    ensures { result ≡ are_half_open left right }
{
    match (left, right) {
        (Some(Row::Array { .. }), Some(Row::OpenArray(_)))
        | (Some(Row::OpenArray(_)), Some(Row::Array { .. })) => true,
        _ => false,
    }
}

/// Whether two types that may be compatible are two: `int` and an enumeration, or arrays of which only one has its length.
fn are_two(left: Option<Row>, right: Option<Row>) -> bool
    ensures { result ≡ are_two left right }
{
    are_int(left, right) || are_half_open(left, right)
}

/// Whether one type has an `int` where the other has an enumeration, or a length where the other has none.
fn mix(types: &Types, a: TypeId, b: TypeId) -> bool
    ensures { result ≡ mix types.now a b }
{
    let mut more = a.number;
    let mut inside = Pair { left: a, right: b };
    'inside: loop {
        if more == 0 {
            return false;
        }
        more -= 1;
        let left = types.row(inside.left);
        let right = types.row(inside.right);
        if are_two(left, right) {
            return true;
        }
        let Some(next) = inside_both(left, right) else {
            return false;
        };
        inside = next;
    }
}

/// Whether members of two bodies at one brace have one type: their types are compatible, and where one has an `int`, the other has no
/// enumeration, and where one has a length, so has the other.
fn members_agree(types: &Types, origins: &Origins, a: TypeId, b: TypeId) -> bool
    ensures { result ≡ members_agree types.now origins.now a b }
{
    agree(types, origins, a, b) && !mix(types, a, b)
}

/// Whether two bodies have the same members.
fn fields_agree(types: &Types, origins: &Origins, a: &[Field], b: &[Field]) -> bool
    ensures { result ≡ fields_agree types.now origins.now a.now b.now }
{
    let mut rest = b;
    'fields: for field in a {
        let Some((other, others)) = rest.split_first() else {
            return false;
        };
        if field.name.items() != other.name.items() {
            return false;
        }
        if !members_agree(types, origins, field.type_id, other.type_id) {
            return false;
        }
        rest = others;
    }
    rest.is_empty()
}

/// Whether two enumerations have the same constants.
fn enumerators_agree(a: &[Enumerator], b: &[Enumerator]) -> bool
    ensures { result ≡ enumerators_agree a.now b.now }
{
    let mut rest = b;
    'constants: for it in a {
        let Some((other, others)) = rest.split_first() else {
            return false;
        };
        if it.name.items() != other.name.items() {
            return false;
        }
        if it.bits != other.bits {
            return false;
        }
        rest = others;
    }
    rest.is_empty()
}

/// Whether a body is the same as another one.
pub(crate) fn tags_agree(types: &Types, origins: &Origins, a: Tag, b: Tag) -> bool
    ensures { result ≡ tags_agree types.now origins.now a b }
{
    match (a, b) {
        (Tag::Struct(one), Tag::Struct(other)) => {
            match (types.body(one), types.body(other)) {
                (Some(body), Some(second)) => {
                    fields_agree(types, origins, body.fields.items(), second.fields.items())
                }
                (None, _) | (Some(_), None) => false,
            }
        }
        (Tag::Enumeration(one), Tag::Enumeration(other)) => {
            match (types.constants(one), types.constants(other)) {
                (Some(its), Some(second)) => enumerators_agree(its.items(), second.items()),
                (None, _) | (Some(_), None) => false,
            }
        }
        (Tag::Struct(_), Tag::Enumeration(_)) | (Tag::Enumeration(_), Tag::Struct(_)) => false,
    }
}

/// The name of the first member.
fn first_field(its: &[Field]) -> &[u8]
    ensures { result.now ≡ first_field its.now }
{
    match its.split_first() {
        Some((first, _)) => first.name.items(),
        None => &[],
    }
}

/// The name of the first constant.
fn first_enumerator(its: &[Enumerator]) -> &[u8]
    ensures { result.now ≡ first_enumerator its.now }
{
    match its.split_first() {
        Some((first, _)) => first.name.items(),
        None => &[],
    }
}

/// The name of the first member or constant, or no bytes.
///
/// Example: `a` of `struct S { int a; }`.
pub fn first_name(types: &Types, it: Tag) -> &[u8]
    ensures { result.now ≡ first_name types.now it }
{
    match it {
        Tag::Struct(number) => match types.body(number) {
            Some(body) => first_field(body.fields.items()),
            None => &[],
        },
        Tag::Enumeration(number) => match types.constants(number) {
            Some(constants) => first_enumerator(constants.items()),
            None => &[],
        },
    }
}
