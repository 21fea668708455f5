//! What names with linkage refer to (X3.159-1989 3.1.2.2).

ghost use Rattle.std.specs.Prelude.{◌≡◌, IfOk};
ghost use Rattle.hs_linkage.specs.Definitions.{first_place, same_name};
ghost use Rattle.hs_linkage.specs.Linkage.{bound_to, new_object, new_function, new_entity, external_as, compatible_externals, clash_of, declarations_of, first_link, next_link, link_as, compatible_routines, declared_as, noted, link};
ghost use Rattle.hs_linkage.specs.Works.{Works};

use crate::entities::{is_routine, seen_type, type_of, with_type};
use crate::externals::Externals;
use crate::late::mark_of;
use crate::questions::{agrees, agrees_if, composite_of, is_function};
use crate::translator::{Linked, StaticObject, Translator};
use hs_base::NoMemory;
use hs_operand_types::Bound;
use hs_syntax::Word;
use hs_table::Routine;
use hs_tree::{Parts, Variable, VariableDecl};
use hs_typer::{Entity, TypeError, copied, next_place};
use hs_types::TypeId;
use std::alloc::Global;

/// The refusal of a declaration that does not fit another one.
///
/// Example: at the second `x` of `int x; char *x;`.
pub fn clash(alloc: Global, word: &Word) -> Result<TypeError, NoMemory>
    ensures { IfOk result (λ why. why ≡ clash_of word.now) }
{
    let name = copied(alloc, word.text.items())?;
    Ok(TypeError::Clash(word.place, name))
}

/// The place of the routine of that name, if there is one.
#[tactic(auto, using(crate::proofs::Onward::onward_here, crate::proofs::Onward::onward_later, crate::proofs::Onward::onward_start))]
fn routine_of(routines: &[Routine], name: &[u8]) -> Result<Option<u32>, NoMemory>
    ensures { IfOk result (λ found. found ≡ first_place (λ it. same_name it.name name.now) routines.now) }
{
    let mut place = 0u32;
    let mut rest = routines;
    'routines: while let Some((routine, others)) = rest.split_first() {
        if routine.name.items() == name {
            return Ok(Some(place));
        }
        rest = others;
        place = next_place(place)?;
    }
    Ok(None)
}

/// What the calls of a function are bound to: a definition wins over the table (own).
fn bound_to(m: &Translator, internal: bool, name: &[u8]) -> Result<Bound, NoMemory>
    ensures { IfOk result (λ bound. bound ≡ bound_to internal m.now.typer.origins.unit name.now m.now.definitions m.now.typer.table) }
{
    let unit = m.typer.origins.unit;
    match m.definitions.number_of(internal, unit, name) {
        Some(number) => Ok(Bound::Function(number)),
        None => match routine_of(m.typer.table.routines(), name)? {
            Some(number) => Ok(Bound::Routine(number)),
            None => Ok(Bound::Nothing),
        },
    }
}

/// A new object of static storage duration, which starts as zero bytes.
///
/// Example: `static int x;` in a block makes one.
pub fn new_object(
    alloc: Global,
    m: &mut Translator,
    word: &Word,
    id: TypeId,
) -> Result<Entity, TypeError>
    ensures { Works (λ it. it) m.new (new_object word.now id m.old) result }
{
    let variable = VariableDecl {
        name: copied(alloc, word.text.items())?,
        at: word.place,
        type_id: id,
        taken: false,
    };
    let place = m.objects.add(StaticObject {
        variable,
        parts: Parts::from_vec(Vec::new(alloc)),
        defined: false,
    })?;
    Ok(Entity::Variable {
        variable: Variable::Global(place),
        type_id: id,
    })
}

/// A function, and what its calls are bound to.
fn new_function(
    m: &Translator,
    internal: bool,
    word: &Word,
    id: TypeId,
) -> Result<Entity, TypeError>
    ensures { Works (λ it. it) m.now (new_function internal word.now id m.now) result }
{
    let bound = bound_to(m, internal, word.text.items())?;
    Ok(Entity::Function { type_id: id, bound })
}

/// What the first declaration of a name refers to.
fn new_entity(
    alloc: Global,
    m: &mut Translator,
    internal: bool,
    word: &Word,
    id: TypeId,
) -> Result<Entity, TypeError>
    ensures { Works (λ it. it) m.new (new_entity internal word.now id m.old) result }
{
    if is_function(&m.typer.types, id) {
        new_function(m, internal, word, id)
    } else {
        new_object(alloc, m, word, id)
    }
}

/// Refuses a type that does not fit each declaration of the name, in any unit (own).
fn compatible_externals(
    alloc: Global,
    m: &Translator,
    word: &Word,
    id: TypeId,
) -> Result<(), TypeError>
    ensures { Works (λ it. it) m.now (compatible_externals word.now id m.now) result }
{
    let name = word.text.items();
    if !m
        .externals
        .agree(&m.typer.types, &m.typer.origins, name, id)
    {
        return Err(clash(alloc, word)?);
    }
    Ok(())
}

/// What another unit declared, with the type that this unit gives it; or something new.
fn external_as(
    alloc: Global,
    m: &mut Translator,
    word: &Word,
    id: TypeId,
    found: Option<Entity>,
) -> Result<Entity, TypeError>
    ensures { Works (λ it. it) m.new (external_as word.now id found m.old) result }
{
    match found {
        Some(it) => Ok(with_type(id, it)),
        None => new_entity(alloc, m, false, word, id),
    }
}

/// What the first declaration of a name in this unit refers to.
fn first_link(
    alloc: Global,
    m: &mut Translator,
    internal: bool,
    word: &Word,
    id: TypeId,
) -> Result<Linked, TypeError>
    ensures { Works (λ it. it) m.new (first_link internal word.now id m.old) result }
{
    if internal {
        let entity = new_entity(alloc, m, true, word, id)?;
        return Ok(Linked {
            internal: true,
            entity,
        });
    }
    compatible_externals(alloc, m, word, id)?;
    let found = m.externals.newest(word.text.items());
    let entity = external_as(alloc, m, word, id, found)?;
    Ok(Linked {
        internal: false,
        entity,
    })
}

/// The declarations with that linkage: of all units, or of this one.
fn declarations_of(m: &Translator, internal: bool) -> &Externals
    ensures { result.now ≡ declarations_of internal m.now }
{
    if internal { &m.internals } else { &m.externals }
}

/// What one more declaration of a name in its unit refers to: the same, with the composite type of the declarations that are visible here.
fn next_link(
    alloc: Global,
    m: &Translator,
    internal: bool,
    word: &Word,
    id: TypeId,
    it: Linked,
) -> Result<Linked, TypeError>
    ensures { Works (λ it. it) m.now (next_link internal word.now id it m.now) result }
{
    if internal && !it.internal {
        return Err(TypeError::Untyped(word.place));
    }
    let name = word.text.items();
    let seen = seen_type(m.typer.names.find(name), it.entity);
    if !declarations_of(m, it.internal).agree(&m.typer.types, &m.typer.origins, name, id)
        || !agrees(&m.typer.types, &m.typer.origins, id, type_of(it.entity))
        || !agrees_if(m, id, seen)
    {
        return Err(clash(alloc, word)?);
    }
    let entity = with_type(composite_of(&m.typer.types, seen, id), it.entity);
    Ok(Linked {
        internal: it.internal,
        entity,
    })
}

/// What a declaration of a name refers to, by what its unit has declared.
fn link_as(
    alloc: Global,
    m: &mut Translator,
    internal: bool,
    word: &Word,
    id: TypeId,
    found: Option<Linked>,
) -> Result<Linked, TypeError>
    ensures { Works (λ it. it) m.new (link_as internal word.now id found m.old) result }
{
    match found {
        Some(it) => next_link(alloc, m, internal, word, id, it),
        None => first_link(alloc, m, internal, word, id),
    }
}

/// Refuses a function of a routine that does not fit each declaration of a function of that name (own).
fn compatible_routines(
    alloc: Global,
    m: &Translator,
    word: &Word,
    id: TypeId,
    it: Linked,
) -> Result<(), TypeError>
    ensures { Works (λ it. it) m.now (compatible_routines word.now id it m.now) result }
{
    let name = word.text.items();
    if is_routine(it.entity) && !m.routines.agree(&m.typer.types, &m.typer.origins, name, id) {
        return Err(clash(alloc, word)?);
    }
    Ok(())
}

/// The declaration is known: in its unit, to other units if its linkage is external, and of a routine. The type is that which the declaration
/// gives.
fn noted(
    alloc: Global,
    m: &mut Translator,
    word: &Word,
    id: TypeId,
    it: Linked,
) -> Result<Entity, TypeError>
    ensures { Works (λ it. it) m.new (noted word.now id it m.old) result }
{
    let unit = m.typer.origins.unit;
    let mark = mark_of(m)?;
    let declared = with_type(id, it.entity);
    m.links.declare(alloc, word.text.items(), it)?;
    if it.internal {
        m.internals.note(alloc, word, unit, mark, declared)?;
    } else {
        m.externals.note(alloc, word, unit, mark, declared)?;
    }
    if is_routine(it.entity) {
        m.routines.note(alloc, word, unit, mark, declared)?;
    }
    Ok(it.entity)
}

/// The object or the function that a declaration with linkage refers to. `internal` is whether it has the word `static`. Refused at the
/// name, as a `Clash` if its type is not compatible with that of each earlier declaration of that object or function.
///
/// Example: `extern int x;` after `static int x;` refers to the same object.
pub fn link(
    alloc: Global,
    m: &mut Translator,
    internal: bool,
    word: &Word,
    id: TypeId,
) -> Result<Entity, TypeError>
    ensures { Works (λ it. it) m.new (link internal word.now id m.old) result }
{
    let found = m.links.find(word.text.items());
    let it = link_as(alloc, m, internal, word, id, found)?;
    compatible_routines(alloc, m, word, id, it)?;
    noted(alloc, m, word, id, it)
}
