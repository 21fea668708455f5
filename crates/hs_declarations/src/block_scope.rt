//! Declarations of blocks (X3.159-1989 3.1.2.2, 3.1.2.4 and 3.5).

ghost use Rattle.std.specs.Prelude.{◌≡◌, [], Some, None, map, option_map, option_copied, IfOk};
ghost use Rattle.hs_declarations.specs.Declarations.{new_local, local_started, automatic, static_started, static_local, not_started, extern_object, block_object, block_function, block_entity, block_item_as, block_item, with_given, block_items, block_items_as, block_fronted, block_declared_at, block_declared};
ghost use Rattle.hs_linkage.specs.Works.{Works};
ghost use Rattle.hs_syntax.specs.Views.{view_declaration, view_item, view_initialiser, specification_of};
ghost use Rattle.hs_tree.specs.Views.{view_item as view_given};

use crate::file_scope::{function_declared, is_static, is_typedef_word, nothing_named};
use crate::fronts::{Front, first_place, front_of, item_type, place_of_start, storage_place};
use crate::starts::{must_be_object, must_be_whole, must_start, object_place};
use hs_base::NoMemory;
use hs_initialisers::{initialised, starting};
use hs_linkage::{Translator, is_function, linked, new_object, renamed};
use hs_syntax::{Decl, Initialiser, Item, Specifier, Storage, Word};
use hs_tokens::Place;
use hs_tree::{Initialised, Variable, VariableDecl};
use hs_typer::{Entity, TypeError, copied, declare, word_of};
use hs_types::TypeId;
use std::alloc::Global;

/// A new automatic variable, and its place among those of its function.
///
/// Example: the first one has the place 0.
pub fn new_local(
    alloc: Global,
    m: &mut Translator,
    word: &Word,
    id: TypeId,
) -> Result<u32, TypeError>
    ensures { Works (λ place. place) m.new (new_local word.now id m.old) result }
{
    let name = copied(alloc, word.text.items())?;
    let place = m.locals.add(VariableDecl {
        name,
        at: word.place,
        type_id: id,
        taken: false,
    })?;
    Ok(place)
}

/// An automatic variable that is given its first value.
fn local_given(
    alloc: Global,
    m: &mut Translator,
    word: &Word,
    id: TypeId,
    place: u32,
    it: &Initialiser,
) -> Result<Initialised, TypeError>
    ensures { Works (λ it. Some (view_given it)) m.new (local_started word.now id place (Some (view_initialiser it.now)) m.old) result }
{
    must_start(m, word, id)?;
    let (made, value) = starting(alloc, &mut m.typer, word.place, id, it)?;
    m.locals.set_type(place, made);
    let entity = Entity::Variable {
        variable: Variable::Local(place),
        type_id: made,
    };
    renamed(alloc, &mut m.typer, word, entity)?;
    Ok(Initialised {
        variable: place,
        at: word.place,
        value,
    })
}

/// An automatic variable, with its initialiser, if it has one.
fn local_started(
    alloc: Global,
    m: &mut Translator,
    word: &Word,
    id: TypeId,
    place: u32,
    it: Option<&Initialiser>,
) -> Result<Option<Initialised>, TypeError>
    ensures { Works (option_map view_given) m.new
        (local_started word.now id place (option_map view_initialiser (option_copied it.entry)) m.old) result }
{
    match it {
        Some(start) => {
            let given = local_given(alloc, m, word, id, place, start)?;
            Ok(Some(given))
        }
        None => {
            must_be_whole(m, word, id)?;
            Ok(None)
        }
    }
}

/// An object of automatic storage duration.
fn automatic(
    alloc: Global,
    m: &mut Translator,
    word: &Word,
    id: TypeId,
    it: Option<&Initialiser>,
) -> Result<Option<Initialised>, TypeError>
    ensures { Works (option_map view_given) m.new (automatic word.now id (option_map view_initialiser (option_copied it.entry)) m.old) result }
{
    must_be_object(m, word, id)?;
    let place = new_local(alloc, m, word, id)?;
    let entity = Entity::Variable {
        variable: Variable::Local(place),
        type_id: id,
    };
    declare(alloc, &mut m.typer, word, entity)?;
    local_started(alloc, m, word, id, place, it)
}

/// A static local that is given its first value.
fn static_given(
    alloc: Global,
    m: &mut Translator,
    word: &Word,
    id: TypeId,
    place: u32,
    it: &Initialiser,
) -> Result<(), TypeError>
    ensures { Works (λ it. it) m.new (static_started word.now id (Some place) (Some (view_initialiser it.now)) m.old) result }
{
    must_start(m, word, id)?;
    let (made, parts) = initialised(alloc, &mut m.typer, word.place, id, it)?;
    m.objects.define(place, made, parts);
    let entity = Entity::Variable {
        variable: Variable::Global(place),
        type_id: made,
    };
    renamed(alloc, &mut m.typer, word, entity)
}

/// A static local, with its initialiser, if it has one.
fn static_started(
    alloc: Global,
    m: &mut Translator,
    word: &Word,
    id: TypeId,
    place: Option<u32>,
    it: Option<&Initialiser>,
) -> Result<(), TypeError>
    ensures { Works (λ it. it) m.new
        (static_started word.now id place (option_map view_initialiser (option_copied it.entry)) m.old) result }
{
    match (place, it) {
        (Some(number), Some(start)) => static_given(alloc, m, word, id, number, start),
        (Some(_), None) => must_be_whole(m, word, id),
        (None, _) => Ok(()),
    }
}

/// An object of static storage duration without linkage.
fn static_local(
    alloc: Global,
    m: &mut Translator,
    word: &Word,
    id: TypeId,
    it: Option<&Initialiser>,
) -> Result<(), TypeError>
    ensures { Works (λ done. None) m.new (static_local word.now id (option_map view_initialiser (option_copied it.entry)) m.old) result }
{
    must_be_object(m, word, id)?;
    let its = new_object(alloc, m, word, id)?;
    declare(alloc, &mut m.typer, word, its)?;
    static_started(alloc, m, word, id, object_place(its), it)
}

/// Refuses an initialiser, at its place.
fn not_started(m: &Translator, it: Option<&Initialiser>) -> Result<(), TypeError>
    ensures { Works (λ it. it) m.now (not_started (option_map view_initialiser (option_copied it.entry)) m.now) result }
{
    let _known = m;
    match it {
        Some(start) => Err(TypeError::Untyped(place_of_start(start))),
        None => Ok(()),
    }
}

/// An object with linkage, which has no initialiser in a block (3.5.7).
fn extern_object(
    alloc: Global,
    m: &mut Translator,
    word: &Word,
    id: TypeId,
    it: Option<&Initialiser>,
) -> Result<(), TypeError>
    ensures { Works (λ done. None) m.new (extern_object word.now id (option_map view_initialiser (option_copied it.entry)) m.old) result }
{
    must_be_object(m, word, id)?;
    linked(alloc, m, false, word, id)?;
    not_started(m, it)
}

/// An object of a block, by the storage word.
fn block_object(
    alloc: Global,
    m: &mut Translator,
    storage: Option<Storage>,
    word: &Word,
    id: TypeId,
    it: Option<&Initialiser>,
) -> Result<Option<Initialised>, TypeError>
    ensures { Works (option_map view_given) m.new
        (block_object storage word.now id (option_map view_initialiser (option_copied it.entry)) m.old) result }
{
    match storage {
        Some(Storage::Extern) => {
            extern_object(alloc, m, word, id, it)?;
            Ok(None)
        }
        Some(Storage::Static) => {
            static_local(alloc, m, word, id, it)?;
            Ok(None)
        }
        Some(Storage::Typedef) | None => automatic(alloc, m, word, id, it),
    }
}

/// A function that a block declares, which is not static (3.5.1). `stored` is the place of the storage word.
fn block_function(
    alloc: Global,
    m: &mut Translator,
    stored: Place,
    storage: Option<Storage>,
    word: &Word,
    id: TypeId,
    it: Option<&Initialiser>,
) -> Result<(), TypeError>
    ensures { Works (λ done. None) m.new
        (block_function stored storage word.now id (option_map view_initialiser (option_copied it.entry)) m.old) result }
{
    if is_static(storage) {
        return Err(TypeError::Untyped(stored));
    }
    function_declared(alloc, m, false, word, id, it)
}

/// An object or a function of a block, by its type.
fn block_entity(
    alloc: Global,
    m: &mut Translator,
    stored: Place,
    storage: Option<Storage>,
    word: &Word,
    id: TypeId,
    it: Option<&Initialiser>,
) -> Result<Option<Initialised>, TypeError>
    ensures { Works (option_map view_given) m.new
        (block_entity stored storage word.now id (option_map view_initialiser (option_copied it.entry)) m.old) result }
{
    if is_function(&m.typer.types, id) {
        block_function(alloc, m, stored, storage, word, id, it)?;
        Ok(None)
    } else {
        block_object(alloc, m, storage, word, id, it)
    }
}

/// What a declarator of a block names. Refused at the first specifier if it names nothing.
fn block_item_as(
    alloc: Global,
    m: &mut Translator,
    at: Place,
    stored: Place,
    storage: Option<Storage>,
    word: Option<&Word>,
    id: TypeId,
    it: Option<&Initialiser>,
) -> Result<Option<Initialised>, TypeError>
    ensures { Works (option_map view_given) m.new
        (block_item_as at stored storage (option_copied word.entry) id (option_map view_initialiser (option_copied it.entry)) m.old) result }
{
    match word {
        Some(name) => block_entity(alloc, m, stored, storage, name, id, it),
        None => Err(TypeError::Untyped(at)),
    }
}

/// One declarator of a block.
fn block_item(
    alloc: Global,
    m: &mut Translator,
    at: Place,
    stored: Place,
    said: Front,
    it: &Item,
) -> Result<Option<Initialised>, TypeError>
    ensures { Works (option_map view_given) m.new (block_item at stored said (view_item it.now) m.old) result }
{
    let id = item_type(alloc, &mut m.typer, at, said.type_id, &it.declarator)?;
    let word = word_of(&it.declarator);
    let start = it.initialiser.as_ref();
    block_item_as(alloc, m, at, stored, said.storage, word, id, start)
}

/// The variables that are given a value, with one more, if it is given one.
fn with_given(
    done: Vec<Initialised>,
    next: Option<Initialised>,
) -> Result<Vec<Initialised>, NoMemory>
    ensures { IfOk result (λ all. map view_given all.items ≡ with_given (map view_given done.items) (option_map view_given next)) }
{
    let mut all = done;
    if let Some(it) = next {
        all.push(it)?;
    }
    Ok(all)
}

/// The declarators of a declaration of a block, in their order.
fn block_items(
    alloc: Global,
    m: &mut Translator,
    at: Place,
    stored: Place,
    said: Front,
    its: &[Item],
) -> Result<Vec<Initialised>, TypeError>
    ensures { Works (λ done. map view_given done.items) m.new (block_items at stored said [] (map view_item its.now) m.old) result }
{
    let mut done = Vec::new(alloc);
    'its: for it in its {
        let next = block_item(alloc, m, at, stored, said, it)?;
        done = with_given(done, next)?;
    }
    Ok(done)
}

/// The declarators of a declaration of a block. A typedef in a block is left out (own).
fn block_items_as(
    alloc: Global,
    m: &mut Translator,
    at: Place,
    stored: Place,
    its: &[Item],
    said: Front,
) -> Result<Vec<Initialised>, TypeError>
    ensures { Works (λ done. map view_given done.items) m.new (block_items_as at stored (map view_item its.now) said m.old) result }
{
    if is_typedef_word(said.storage) {
        return Err(TypeError::Untyped(stored));
    }
    block_items(alloc, m, at, stored, said, its)
}

/// A declaration of a block with declarators.
fn block_fronted(
    alloc: Global,
    m: &mut Translator,
    at: Place,
    stored: Place,
    specifiers: &[Specifier],
    its: &[Item],
) -> Result<Vec<Initialised>, TypeError>
    ensures { Works (λ done. map view_given done.items) m.new
        (block_fronted at stored (specification_of specifiers.now) (map view_item its.now) m.old) result }
{
    let said = front_of(alloc, &mut m.typer, at, specifiers)?;
    block_items_as(alloc, m, at, stored, its, said)
}

/// A declaration of a block, with or without declarators.
fn block_declared_at(
    alloc: Global,
    m: &mut Translator,
    at: Place,
    specifiers: &[Specifier],
    its: &[Item],
) -> Result<Vec<Initialised>, TypeError>
    ensures { Works (λ done. map view_given done.items) m.new
        (block_declared_at at (specification_of specifiers.now) (map view_item its.now) m.old) result }
{
    match its.split_first() {
        Some(_) => {
            let stored = storage_place(at, specifiers);
            block_fronted(alloc, m, at, stored, specifiers, its)
        }
        None => {
            nothing_named(alloc, m, true, at, specifiers)?;
            Ok(Vec::new(alloc))
        }
    }
}

/// A declaration of a block (3.6.2), and the automatic variables that it gives a value. `other` is the place of one that begins with no
/// specifier. Refused as `file_declaration` is; a typedef is refused at its storage word.
///
/// Example: `int x = 1, y;` gives `x` the value 1.
pub fn block_declaration(
    alloc: Global,
    m: &mut Translator,
    other: Place,
    it: &Decl,
) -> Result<Vec<Initialised>, TypeError>
    ensures { Works (λ done. map view_given done.items) m.new (block_declared other (view_declaration it.now) m.old) result }
{
    let at = first_place(other, &it.specifiers);
    block_declared_at(alloc, m, at, &it.specifiers, &it.items)
}
