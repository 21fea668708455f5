//! What a declaration of an object must meet, and what objects with linkage start with (X3.159-1989 3.5.7 and 3.7.2).

ghost use Rattle.std.specs.Prelude.{◌≡◌, option_map, option_copied};
ghost use Rattle.hs_declarations.specs.Declarations.{is_object, is_whole, can_start, object_place, is_first, object_started, started_as, object_with_start};
ghost use Rattle.hs_linkage.specs.Works.{Works};
ghost use Rattle.hs_syntax.specs.Views.{view_initialiser};

use hs_initialisers::initialised;
use hs_linkage::{Translator, clash, completed_link, designates, is_complete, is_open};
use hs_syntax::{Initialiser, Word};
use hs_tree::Variable;
use hs_typer::{Entity, TypeError};
use hs_types::TypeId;
use std::alloc::Global;

/// Refuses void and functions as types of objects.
pub(crate) fn must_be_object(m: &Translator, word: &Word, id: TypeId) -> Result<(), TypeError>
    ensures { Works (λ it. it) m.now (is_object word.now id m.now) result }
{
    if !designates(&m.typer.types, id) {
        return Err(TypeError::Untyped(word.place));
    }
    Ok(())
}

/// Refuses an incomplete type, at the name of what is of that type.
///
/// Example: a struct without its body.
pub fn must_be_whole(m: &Translator, word: &Word, id: TypeId) -> Result<(), TypeError>
    ensures { Works (λ it. it) m.now (is_whole word.now id m.now) result }
{
    if !is_complete(&m.typer.types, id) {
        return Err(TypeError::Untyped(word.place));
    }
    Ok(())
}

/// Refuses an incomplete type of an object with an initialiser, which may say how many elements an array has.
pub(crate) fn must_start(m: &Translator, word: &Word, id: TypeId) -> Result<(), TypeError>
    ensures { Works (λ it. it) m.now (can_start word.now id m.now) result }
{
    if !is_complete(&m.typer.types, id) && !is_open(&m.typer.types, id) {
        return Err(TypeError::Untyped(word.place));
    }
    Ok(())
}

/// The place of an object of static storage duration.
pub(crate) fn object_place(it: Entity) -> Option<u32>
    ensures { result ≡ object_place it }
{
    match it {
        Entity::Variable {
            variable: Variable::Global(place),
            ..
        } => Some(place),
        Entity::Variable {
            variable: Variable::Local(_),
            ..
        }
        | Entity::Constant(_)
        | Entity::Function { .. }
        | Entity::Typedef(_) => None,
    }
}

/// Refuses a second initialiser of one object (own).
fn must_be_first(alloc: Global, m: &Translator, word: &Word, place: u32) -> Result<(), TypeError>
    ensures { Works (λ it. it) m.now (is_first word.now place m.now) result }
{
    if m.objects.is_defined(place) {
        return Err(clash(alloc, word)?);
    }
    Ok(())
}

/// The definition of an object with linkage that has an initialiser.
fn object_started(
    alloc: Global,
    m: &mut Translator,
    internal: bool,
    word: &Word,
    it: &Initialiser,
    place: u32,
    id: TypeId,
) -> Result<(), TypeError>
    ensures { Works (λ it. it) m.new (object_started internal word.now (view_initialiser it.now) place id m.old) result }
{
    must_start(m, word, id)?;
    must_be_first(alloc, m, word, place)?;
    let (made, parts) = initialised(alloc, &mut m.typer, word.place, id, it)?;
    completed_link(alloc, m, internal, word, made)?;
    m.objects.define(place, made, parts);
    Ok(())
}

/// The same of the object that a declaration refers to, of the composite type of the declarations that are visible there.
fn started_as(
    alloc: Global,
    m: &mut Translator,
    internal: bool,
    word: &Word,
    it: &Initialiser,
    its: Entity,
) -> Result<(), TypeError>
    ensures { Works (λ it. it) m.new (started_as internal word.now (view_initialiser it.now) its m.old) result }
{
    match its {
        Entity::Variable {
            variable: Variable::Global(place),
            type_id,
        } => object_started(alloc, m, internal, word, it, place, type_id),
        Entity::Variable {
            variable: Variable::Local(_),
            ..
        }
        | Entity::Constant(_)
        | Entity::Function { .. }
        | Entity::Typedef(_) => Ok(()),
    }
}

/// The object that a declaration refers to, with its initialiser, if it has one.
pub(crate) fn object_with_start(
    alloc: Global,
    m: &mut Translator,
    internal: bool,
    word: &Word,
    it: Option<&Initialiser>,
    its: Entity,
) -> Result<(), TypeError>
    ensures { Works (λ it. it) m.new (object_with_start internal word.now (option_map view_initialiser (option_copied it.entry)) its m.old) result }
{
    match it {
        Some(start) => started_as(alloc, m, internal, word, start, its),
        None => Ok(()),
    }
}
