//! What names mean.

ghost use Rattle.std.specs.Prelude.{◌≡◌};
ghost use Rattle.hs_linkage.specs.Externals.{type_of_entity};
ghost use Rattle.hs_linkage.specs.Linkage.{with_type_id, same_entity, is_free, sees, is_hidden, seen_type, is_routine_entity};
ghost use Rattle.hs_typer.specs.Declarators.{is_typedef};

use crate::translator::Linked;
use hs_operand_types::Bound;
use hs_typer::Entity;
use hs_types::TypeId;

/// The type of an object or a function.
pub(crate) fn type_of(entity: Entity) -> Option<TypeId>
    ensures { result ≡ type_of_entity entity }
{
    match entity {
        Entity::Variable { type_id, .. } | Entity::Function { type_id, .. } => Some(type_id),
        Entity::Constant(_) | Entity::Typedef(_) => None,
    }
}

/// The same object or function, with that type.
pub(crate) fn with_type(id: TypeId, entity: Entity) -> Entity
    ensures { result ≡ with_type_id id entity }
{
    match entity {
        Entity::Variable { variable, .. } => Entity::Variable {
            variable,
            type_id: id,
        },
        Entity::Function { bound, .. } => Entity::Function { type_id: id, bound },
        Entity::Constant(_) | Entity::Typedef(_) => entity,
    }
}

/// Whether both are one object, or functions. Two functions of one name are one.
fn is_same(a: Entity, b: Entity) -> bool
    ensures { result ≡ same_entity a b }
{
    match (a, b) {
        (
            Entity::Variable { variable: one, .. },
            Entity::Variable {
                variable: other,
                ..
            },
        ) => { one == other }
        (Entity::Function { .. }, Entity::Function { .. }) => true,
        _ => false,
    }
}

/// Whether what a name means in the innermost scope, if it means something, is what it is linked to.
pub(crate) fn is_free(here: Option<Entity>, link: Option<Linked>) -> bool
    ensures { result ≡ is_free here link }
{
    match (here, link) {
        (None, _) => true,
        (Some(_), None) => false,
        (Some(entity), Some(link)) => is_same(entity, link.entity),
    }
}

/// Whether a name that means the first, if it means something, means that object or function.
fn sees(seen: Option<Entity>, it: Entity) -> bool
    ensures { result ≡ sees seen it }
{
    match seen {
        Some(entity) => is_same(entity, it),
        None => false,
    }
}

/// Whether a name has internal linkage, and means something else where it stands.
pub(crate) fn is_hidden(seen: Option<Entity>, link: Option<Linked>) -> bool
    ensures { result ≡ is_hidden seen link }
{
    match link {
        Some(link) => link.internal && !sees(seen, link.entity),
        None => false,
    }
}

/// The type of the visible declaration of that object or function, if the name means it where it stands.
pub(crate) fn seen_type(seen: Option<Entity>, it: Entity) -> Option<TypeId>
    ensures { result ≡ seen_type seen it }
{
    match seen {
        Some(entity) => {
            if is_same(entity, it) {
                type_of(entity)
            } else {
                None
            }
        }
        None => None,
    }
}

/// Whether it is a function whose calls are bound to a routine.
pub(crate) fn is_routine(entity: Entity) -> bool
    ensures { result ≡ is_routine_entity entity }
{
    match entity {
        Entity::Function { bound, .. } => match bound {
            Bound::Routine(_) => true,
            Bound::Function(_) | Bound::Nothing => false,
        },
        Entity::Constant(_) | Entity::Variable { .. } | Entity::Typedef(_) => false,
    }
}

/// Whether the name is a typedef name.
pub(crate) fn is_typedef(entity: Option<Entity>) -> bool
    ensures { result ≡ is_typedef entity }
{
    match entity {
        Some(Entity::Typedef(_)) => true,
        Some(Entity::Constant(_) | Entity::Variable { .. } | Entity::Function { .. }) | None => {
            false
        }
    }
}
