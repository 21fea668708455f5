//! Initialisers: what the object of a declaration starts with.

use crate::declarations::{place_of, size_of};
use crate::refusal::{Refusal, Why};
use crate::texts::units_of;
use crate::type_names::type_name;
use crate::world::beginning;
use hs_expressions::{derivations, specifiers};
use hs_initialisers::{initialised, inline_words, starting};
use hs_syntax::{Decl, External, Initialiser, Item, Unit};
use hs_tokens::Place;
use hs_tree::{Base, Constant, Initial, Part};
use hs_typer::{Typer, formed};
use hs_types::{TypeId, Types};
use std::alloc::{AllocError, Global};
use std::fmt::Write;

/// The only declaration of units.
fn only(units: &[Unit]) -> Result<&Decl, Refusal> {
    let [it] = units else {
        return Err(Why::Unread.into());
    };
    match it.externals.as_slice() {
        [External::Declaration(it)] => Ok(it),
        _ => Err(Why::Unread.into()),
    }
}

/// The first declarator of a declaration.
fn first(it: &Decl) -> Result<&Item, Refusal> {
    it.items.first().ok_or(Why::Unread.into())
}

/// The initialiser of the first declarator.
fn start(it: &Decl) -> Result<&Initialiser, Refusal> {
    match &first(it)?.initialiser {
        Some(start) => Ok(start),
        None => Err(Why::Unread.into()),
    }
}

/// The type that the specifiers of a declaration name.
fn base(alloc: Global, typer: &mut Typer, at: Place, it: &Decl) -> Result<TypeId, Refusal> {
    let said = specifiers(alloc, typer, true, at, &it.specifiers)?;
    Ok(said.type_from(at)?)
}

/// The type of the first declarator of a declaration.
fn declared(alloc: Global, typer: &mut Typer, at: Place, it: &Decl) -> Result<TypeId, Refusal> {
    let id = base(alloc, typer, at, it)?;
    let its = derivations(alloc, typer, at, &first(it)?.declarator)?;
    Ok(formed(&mut typer.types, at, &its, id)?)
}

/// A constant.
fn constant_text(alloc: Global, it: Constant) -> Result<String, AllocError> {
    match it {
        Constant::Number(bits) => format!(in alloc; "{bits}"),
        Constant::Nil => format!(in alloc; "null"),
        Constant::Address { base, offset } => match base {
            Base::Global(place) => format!(in alloc; "object {place} + {offset}"),
            Base::Literal(place) => format!(in alloc; "string {place} + {offset}"),
        },
    }
}

/// The size of an object, and the constants that it starts with, each with its byte.
fn parts_text(alloc: Global, size: u32, parts: &[Part]) -> Result<String, AllocError> {
    let mut text = format!(in alloc; "{size} bytes")?;
    for part in parts {
        let value = constant_text(alloc, part.value)?;
        write!(text, ", {} at {}", value, part.offset)?;
    }
    Ok(text)
}

/// What the object of a declaration starts with, with what is known.
fn constants_with(alloc: Global, typer: &mut Typer, it: &Decl) -> Result<String, Refusal> {
    let at = place_of(it)?;
    let id = declared(alloc, typer, at, it)?;
    let (made, parts) = initialised(alloc, typer, at, id, start(it)?)?;
    Ok(parts_text(alloc, size_of(&typer.types, made), &parts)?)
}

/// What the object of units starts with.
fn constants_of(alloc: Global, units: &[Unit]) -> Result<String, Refusal> {
    let mut typer = beginning(alloc)?;
    constants_with(alloc, &mut typer, only(units)?)
}

/// What the object of a text starts with.
pub(crate) fn constants(alloc: Global, text: &str) -> Result<String, Refusal> {
    let units = units_of(alloc, text)?;
    constants_of(alloc, &units)
}

/// What an automatic object starts with: the type of its value, or constants.
fn value_text(alloc: Global, types: &Types, it: &Initial) -> Result<String, Refusal> {
    match it {
        Initial::Value(e) => type_name(alloc, types, e.head().type_id),
        Initial::Parts(_) => Ok(String::from_str(alloc, "constants")?),
    }
}

/// The same of the object of a declaration, with what is known.
fn value_with(alloc: Global, typer: &mut Typer, it: &Decl) -> Result<String, Refusal> {
    let at = place_of(it)?;
    let id = declared(alloc, typer, at, it)?;
    let (_, value) = starting(alloc, typer, at, id, start(it)?)?;
    value_text(alloc, &typer.types, &value)
}

/// The same of the object of units.
fn value_of(alloc: Global, units: &[Unit]) -> Result<String, Refusal> {
    let mut typer = beginning(alloc)?;
    value_with(alloc, &mut typer, only(units)?)
}

/// What the automatic object of a text starts with: the type of its value, or constants.
pub(crate) fn value(alloc: Global, text: &str) -> Result<String, Refusal> {
    let units = units_of(alloc, text)?;
    value_of(alloc, &units)
}

/// Reads the words after the prototype of units, if they are constants.
fn read_inline(alloc: Global, units: &[Unit]) -> Result<(), Refusal> {
    let mut typer = beginning(alloc)?;
    Ok(inline_words(alloc, &mut typer, start(only(units)?)?)?)
}

/// Whether the words after the prototype of a text are constants.
pub(crate) fn inline(alloc: Global, text: &str) -> Result<String, Refusal> {
    let units = units_of(alloc, text)?;
    read_inline(alloc, &units)?;
    Ok(String::from_str(alloc, "constants")?)
}
