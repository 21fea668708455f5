//! The types that are one.

ghost use Rattle.std.specs.Prelude.{◌≡◌, [], slice_get, IfOk};
ghost use Rattle.hs_same_types.specs.Representatives.{next_row, type_of, types_of, representatives};
ghost use Rattle.hs_tree.specs.Representatives.{or_itself};

use crate::structs::structs_of;
use hs_base::{NoMemory, Numbers};
use hs_tree::{Representatives, TypeIds};
use hs_typer::{Origins, next_place};
use hs_types::{Integer, Row, TypeId, Types};
use indexmap::IndexMap;
use std::alloc::Global;

/// What stands for that type.
fn type_for(done: &[TypeId], id: TypeId) -> TypeId
    ensures { result ≡ or_itself id (slice_get done.now id.number) }
{
    match done.get(id.number as usize) {
        Some(first) => *first,
        None => id,
    }
}

/// What stands for the struct of that number.
fn struct_for(structs: &[u32], number: u32) -> u32
    ensures { result ≡ or_itself number (slice_get structs.now number) }
{
    match structs.get(number as usize) {
        Some(first) => *first,
        None => number,
    }
}

/// The row with what stands for the types inside it. An enumeration counts as `int`.
fn next_row(structs: &[u32], done: &[TypeId], row: Row) -> Row
    ensures { result ≡ next_row structs.now done.now row }
{
    match row {
        Row::Void => Row::Void,
        Row::Integer(its) => Row::Integer(its),
        Row::Pointer(of) => Row::Pointer(type_for(done, of)),
        Row::Enumeration(_) => Row::Integer(Integer::Int),
        Row::Struct(number) => Row::Struct(struct_for(structs, number)),
        Row::Array { of, length, layout } => Row::Array {
            of: type_for(done, of),
            length,
            layout,
        },
        Row::OpenArray(of) => Row::OpenArray(type_for(done, of)),
        Row::Function { result, parameters } => Row::Function { result, parameters },
    }
}

/// The first type with that row, or that of the number.
fn type_of(known: &IndexMap<Row, TypeId>, number: u32, row: Row) -> TypeId
    ensures { result ≡ type_of known.now.entries number row }
{
    match known.get(&row) {
        Some(first) => *first,
        None => TypeId { number },
    }
}

/// What stands for each type, if that stands for the structs.
fn types_of(alloc: Global, types: &Types, structs: &[u32]) -> Result<Vec<TypeId>, NoMemory>
    ensures { IfOk result (λ all. all.items ≡ types_of structs.now [] [] types.now.rows) }
{
    let mut done = Vec::new(alloc);
    let mut known = IndexMap::new(alloc);
    let mut number = 0u32;
    'rows: while let Some(row) = types.row(TypeId { number }) {
        let its = next_row(structs, &done, row);
        let first = type_of(&known, number, its);
        known.insert(its, first)?;
        done.push(first)?;
        number = next_place(number)?;
    }
    Ok(done)
}

/// What stands for each struct and each type of a program, at the end of its units (own; X3.159-1989 3.1.2.6). Fails if memory runs out.
///
/// `Origins::stands_for` of `hs_typer` says which structs are one. Other types are one if they are made of types that are one, in the same
/// way; an enumeration counts as `int`.
///
/// Example: of a program with one unit each struct stands for itself.
pub fn representatives(
    alloc: Global,
    types: &Types,
    o: &Origins,
) -> Result<Representatives, NoMemory>
    ensures { IfOk result (λ same. same ≡ representatives types.now o.now) }
{
    let structs = structs_of(alloc, o)?;
    let all = types_of(alloc, types, &structs)?;
    Ok(Representatives {
        structs: Numbers::from_vec(structs),
        types: TypeIds::from_vec(all),
    })
}
