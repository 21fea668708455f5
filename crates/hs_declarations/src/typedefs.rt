//! Typedef names of file scope (X3.159-1989 3.5.6).

ghost use Rattle.std.specs.Prelude.{◌≡◌, [], map, option_map, option_copied};
ghost use Rattle.hs_declarations.specs.Declarations.{typedef_as, typedef_item, typedef_types, typedef_named, typedefs_named, typedef_items};
ghost use Rattle.hs_linkage.specs.Works.{Works};
ghost use Rattle.hs_syntax.specs.Views.{view_item};

use crate::fronts::{item_type, place_of_start};
use hs_linkage::Translator;
use hs_syntax::{Item, Word};
use hs_tokens::Place;
use hs_typer::{Entity, TypeError, declare, pushed_copy, word_of};
use hs_types::TypeId;
use std::alloc::Global;

/// The type of a typedef name, which has no initialiser.
fn typedef_item(
    alloc: Global,
    m: &mut Translator,
    at: Place,
    base: TypeId,
    it: &Item,
) -> Result<TypeId, TypeError>
    ensures { Works (λ id. id) m.new (typedef_item at base (view_item it.now) m.old) result }
{
    let id = item_type(alloc, &mut m.typer, at, base, &it.declarator)?;
    if word_of(&it.declarator).is_none() {
        return Err(TypeError::Untyped(at));
    }
    match &it.initialiser {
        Some(start) => Err(TypeError::Untyped(place_of_start(start))),
        None => Ok(id),
    }
}

/// The types of all typedef names of a declaration.
fn typedef_types(
    alloc: Global,
    m: &mut Translator,
    at: Place,
    base: TypeId,
    its: &[Item],
) -> Result<Vec<TypeId>, TypeError>
    ensures { Works (λ ids. ids.items) m.new (typedef_types at base [] (map view_item its.now) m.old) result }
{
    let mut done = Vec::new(alloc);
    'its: for it in its {
        let id = typedef_item(alloc, m, at, base, it)?;
        done = pushed_copy(done, id)?;
    }
    Ok(done)
}

/// A typedef name.
fn typedef_named(
    alloc: Global,
    m: &mut Translator,
    word: Option<&Word>,
    id: TypeId,
) -> Result<(), TypeError>
    ensures { Works (λ it. it) m.new (typedef_named (option_copied word.entry) id m.old) result }
{
    match word {
        Some(name) => declare(alloc, &mut m.typer, name, Entity::Typedef(id)),
        None => Ok(()),
    }
}

/// The typedef names of a declaration, each with its type.
fn typedefs_named(
    alloc: Global,
    m: &mut Translator,
    its: &[Item],
    ids: &[TypeId],
) -> Result<(), TypeError>
    ensures { Works (λ it. it) m.new (typedefs_named (map view_item its.now) ids.now m.old) result }
{
    let mut rest = ids;
    'its: for it in its {
        let Some((id, others)) = rest.split_first() else {
            return Ok(());
        };
        typedef_named(alloc, m, word_of(&it.declarator), *id)?;
        rest = others;
    }
    Ok(())
}

/// A declaration of typedef names. They are known after the whole declaration (own).
pub(crate) fn typedef_items(
    alloc: Global,
    m: &mut Translator,
    at: Place,
    base: TypeId,
    its: &[Item],
) -> Result<(), TypeError>
    ensures { Works (λ it. it) m.new (typedef_items at base (map view_item its.now) m.old) result }
{
    let ids = typedef_types(alloc, m, at, base, its)?;
    typedefs_named(alloc, m, its, &ids)
}
