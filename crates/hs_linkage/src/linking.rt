//! Names with linkage, as declarations make them known (X3.159-1989 3.5 and 3.7.2).

ghost use Rattle.std.specs.Prelude.{◌≡◌};
ghost use Rattle.hs_linkage.specs.Linkage.{may_name, with_object_type, object_typed, renamed, linked, completed_link};
ghost use Rattle.hs_linkage.specs.Works.{Works};
ghost use Rattle.hs_typer.specs.Steps.{Steps};

use crate::entities::{is_free, is_hidden, is_typedef};
use crate::linkage::link;
use crate::translator::Translator;
use hs_syntax::Word;
use hs_tree::Variable;
use hs_typer::{Entity, TypeError, Typer};
use hs_types::TypeId;
use std::alloc::Global;

/// Refuses a name that is a typedef name, that means something else in the innermost scope, or that has internal linkage and is hidden, so that
/// it would get external linkage too.
///
/// Example: `x` after `enum { x };`.
pub fn may_name(m: &Translator, word: &Word) -> Result<(), TypeError>
    ensures { Works (λ it. it) m.now (may_name word.now m.now) result }
{
    let name = word.text.items();
    if is_typedef(m.typer.names.find(name)) {
        return Err(TypeError::Untyped(word.place));
    }
    if !is_free(m.typer.names.find_here(name), m.links.find(name)) {
        return Err(TypeError::Untyped(word.place));
    }
    if is_hidden(m.typer.names.find(name), m.links.find(name)) {
        return Err(TypeError::Untyped(word.place));
    }
    Ok(())
}

/// An object has the type of its definition, or else the first complete type that a declaration gives it, if there is one.
fn object_typed(m: &mut Translator, it: Entity)
    ensures { m.new ≡ with_object_type it m.old }
{
    match it {
        Entity::Variable {
            variable: Variable::Global(place),
            type_id,
        } => m.objects.declare(&m.typer.types, place, type_id),
        Entity::Variable {
            variable: Variable::Local(_),
            ..
        }
        | Entity::Constant(_)
        | Entity::Function { .. }
        | Entity::Typedef(_) => {}
    }
}

/// The name means it from here on, in the innermost scope.
///
/// Example: after its initialiser an array is of a complete type.
pub fn renamed(alloc: Global, typer: &mut Typer, word: &Word, it: Entity) -> Result<(), TypeError>
    ensures { Steps (λ it. it) typer.new (renamed word.now it typer.old) result }
{
    typer.names.declare(alloc, word.text.items(), it)?;
    Ok(())
}

/// Declares a name with linkage, and returns the object or the function that it refers to. `internal` is whether the declaration has the
/// word `static`. Refused at the name.
///
/// Example: two declarations `int x;` are of one object.
pub fn linked(
    alloc: Global,
    m: &mut Translator,
    internal: bool,
    word: &Word,
    id: TypeId,
) -> Result<Entity, TypeError>
    ensures { Works (λ it. it) m.new (linked internal word.now id m.old) result }
{
    may_name(m, word)?;
    let it = link(alloc, m, internal, word, id)?;
    object_typed(m, it);
    renamed(alloc, &mut m.typer, word, it)?;
    Ok(it)
}

/// The same object, after its initialiser gave it that type. Refused as a `Clash` at its name if the type does not fit.
///
/// Example: `int a[2]; int a[] = { 1 };` is refused.
pub fn completed_link(
    alloc: Global,
    m: &mut Translator,
    internal: bool,
    word: &Word,
    id: TypeId,
) -> Result<Entity, TypeError>
    ensures { Works (λ it. it) m.new (completed_link internal word.now id m.old) result }
{
    let it = link(alloc, m, internal, word, id)?;
    renamed(alloc, &mut m.typer, word, it)?;
    Ok(it)
}
