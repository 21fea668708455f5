//! Types as C writes their names.

use crate::refusal::{Refusal, Why};
use hs_types::{Integer, Row, TypeId, Types};
use std::alloc::{AllocError, Global};

/// The name of an integer type.
fn integer_name(it: Integer) -> &'static str {
    match it {
        Integer::Char => "char",
        Integer::SignedChar => "signed char",
        Integer::UnsignedChar => "unsigned char",
        Integer::Short => "short",
        Integer::UnsignedShort => "unsigned short",
        Integer::Int => "int",
        Integer::UnsignedInt => "unsigned int",
        Integer::Long => "long",
        Integer::UnsignedLong => "unsigned long",
    }
}

/// The name of a type that is derived from no other, with that declarator after it.
fn basic_name(alloc: Global, row: Row, declarator: &str) -> Result<String, AllocError> {
    let space = if declarator.is_empty() { "" } else { " " };
    match row {
        Row::Void => format!(in alloc; "void{space}{declarator}"),
        Row::Integer(kind) => {
            let name = integer_name(kind);
            format!(in alloc; "{name}{space}{declarator}")
        }
        Row::Enumeration(number) => format!(in alloc; "enum {number}{space}{declarator}"),
        Row::Struct(number) => format!(in alloc; "struct {number}{space}{declarator}"),
        _ => format!(in alloc; "another type"),
    }
}

/// A type, and the declarator that comes after its name.
#[derive(Drop)]
struct Declared {
    type_id: TypeId,
    declarator: String,
}

/// What a type is derived from, if it is a pointer or an array.
fn derived_from(alloc: Global, row: Row, declarator: &str) -> Result<Option<Declared>, AllocError> {
    let (type_id, declarator) = match row {
        Row::Pointer(to) => (to, format!(in alloc; "*{declarator}")?),
        Row::Array { of, length, .. } => (of, format!(in alloc; "({declarator})[{length}]")?),
        Row::OpenArray(of) => (of, format!(in alloc; "({declarator})[]")?),
        _ => return Ok(None),
    };
    Ok(Some(Declared {
        type_id,
        declarator,
    }))
}

/// The name of a type. A struct and an enumeration are named by their numbers.
pub(crate) fn type_name(alloc: Global, types: &Types, type_id: TypeId) -> Result<String, Refusal> {
    let mut it = Declared {
        type_id,
        declarator: String::new(alloc),
    };
    for _ in 0..types.len() {
        let Some(row) = types.row(it.type_id) else {
            break;
        };
        match derived_from(alloc, row, it.declarator.as_str())? {
            Some(inner) => it = inner,
            None => return Ok(basic_name(alloc, row, it.declarator.as_str())?),
        }
    }
    Err(Why::Unread.into())
}
