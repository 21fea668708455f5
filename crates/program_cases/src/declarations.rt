//! Declarations: the objects that they make.

use crate::refusal::{Refusal, Why};
use crate::texts::{boxed, units_of, with};
use hs_declarations::{block_declaration, file_declaration};
use hs_linkage::{Definitions, Translator};
use hs_syntax::{Block, Decl, External, Unit, first_of_specifiers};
use hs_table::built_in;
use hs_tokens::Place;
use hs_types::{TypeId, Types};
use std::alloc::Global;

/// The place of the first token of a declaration.
pub(crate) fn place_of(it: &Decl) -> Result<Place, Refusal> {
    first_of_specifiers(&it.specifiers).ok_or(Why::Unread.into())
}

/// Declares what a declaration of file scope declares.
fn in_file(alloc: Global, m: &mut Translator, it: &Decl) -> Result<(), Refusal> {
    Ok(file_declaration(alloc, m, place_of(it)?, it)?)
}

/// Declares what a declaration of a block declares, and returns how many variables it gives a value.
fn in_block(alloc: Global, m: &mut Translator, it: &Decl) -> Result<usize, Refusal> {
    Ok(block_declaration(alloc, m, place_of(it)?, it)?.len())
}

/// Declares what the declarations of a block declare.
fn with_block(alloc: Global, m: &mut Translator, it: &Block) -> Result<usize, Refusal> {
    let mut values = 0usize;
    for declaration in &it.declarations {
        values = values.saturating_add(in_block(alloc, m, declaration)?);
    }
    Ok(values)
}

/// Declares what an external declaration declares; of a function, what its block declares.
fn with_external(alloc: Global, m: &mut Translator, it: &External) -> Result<usize, Refusal> {
    match it {
        External::Declaration(declaration) => {
            in_file(alloc, m, declaration)?;
            Ok(0)
        }
        External::Function { body, .. } => with_block(alloc, m, body),
    }
}

/// Declares what a unit declares.
fn with_unit(alloc: Global, m: &mut Translator, it: &Unit) -> Result<usize, Refusal> {
    let mut values = 0usize;
    for external in &it.externals {
        values = values.saturating_add(with_external(alloc, m, external)?);
    }
    Ok(values)
}

/// The size of a type, or 0 if it is incomplete.
pub(crate) fn size_of(types: &Types, id: TypeId) -> u32 {
    match types.layout(id) {
        Some(it) => it.size,
        None => 0,
    }
}

/// The size of the last object, or 0 if there is no object.
fn last_size(m: &Translator) -> u32 {
    match m.objects.items().last() {
        Some(it) => size_of(&m.typer.types, it.variable.type_id),
        None => 0,
    }
}

/// What is known before the first declaration of units.
pub(crate) fn beginning(alloc: Global, units: &[Unit]) -> Result<Box<Translator>, Refusal> {
    let definitions = Definitions::of(alloc, units)?;
    let (definitions, table) = with(definitions, built_in(alloc))?;
    boxed(alloc, Translator::new(alloc, table, definitions))
}

/// Declares what units declare, and returns how many variables are given a value.
fn with_units(alloc: Global, m: &mut Translator, units: &[Unit]) -> Result<usize, Refusal> {
    let mut values = 0usize;
    for it in units {
        values = values.saturating_add(with_unit(alloc, m, it)?);
    }
    Ok(values)
}

/// How many objects units make, the size of the last one, and how many variables are given a value.
fn objects_of(alloc: Global, units: &[Unit]) -> Result<String, Refusal> {
    let mut m = beginning(alloc, units)?;
    let values = with_units(alloc, &mut m, units)?;
    let count = m.objects.items().len();
    let size = last_size(&m);
    Ok(format!(in alloc; "{count} {size} {values}")?)
}

/// How many objects a text makes, the size of the last one, and how many variables are given a value.
pub(crate) fn objects(alloc: Global, text: &str) -> Result<String, Refusal> {
    let units = units_of(alloc, text)?;
    objects_of(alloc, &units)
}
