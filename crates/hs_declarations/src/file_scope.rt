//! Declarations of file scope (X3.159-1989 3.5 and 3.7.2).

ghost use Rattle.std.specs.Prelude.{◌≡◌, map, option_map, option_copied};
ghost use Rattle.hs_declarations.specs.Declarations.{may_be_tentative, is_internal_link, keeps_linkage, is_extern, tentative, file_object_as, file_object, with_inline_words, function_declared, file_entity, is_static, is_typedef_word, file_item_as, file_item, file_items, declared_alone, nothing_named, file_items_as, file_declared_at, file_declared};
ghost use Rattle.hs_declarations.specs.Fronts.{lone_tag};
ghost use Rattle.hs_linkage.specs.Works.{Works};
ghost use Rattle.hs_syntax.specs.Views.{view_declaration, view_item, view_initialiser, specification_of};

use crate::fronts::{
    Front, declares_any, first_place, front_of, item_type, lone_tag, storage_place, tag_alone,
};
use crate::starts::{must_be_object, object_with_start};
use crate::typedefs::typedef_items;
use hs_initialisers::inline_words;
use hs_linkage::{Linked, Translator, is_complete, is_function, is_open, linked, mark_of};
use hs_syntax::{Decl, Initialiser, Item, Specifier, Storage, Word};
use hs_tokens::Place;
use hs_typer::{Tentative, TypeError, word_of};
use hs_types::TypeId;
use std::alloc::Global;

/// Refuses a tentative definition with internal linkage of an incomplete type (3.7.2).
fn may_be_tentative(
    m: &Translator,
    internal: bool,
    word: &Word,
    id: TypeId,
    it: Option<&Initialiser>,
) -> Result<(), TypeError>
    ensures { Works (λ it. it) m.now (may_be_tentative internal word.now id (option_map view_initialiser (option_copied it.entry)) m.now) result }
{
    if internal && it.is_none() && !is_complete(&m.typer.types, id) {
        return Err(TypeError::Untyped(word.place));
    }
    Ok(())
}

/// Whether a name has internal linkage.
fn is_internal_link(link: Option<Linked>) -> bool
    ensures { result ≡ is_internal_link link }
{
    match link {
        Some(it) => it.internal,
        None => false,
    }
}

/// Refuses an object without a storage word whose name has internal linkage (3.1.2.2).
fn keeps_linkage(m: &Translator, storage: Option<Storage>, word: &Word) -> Result<(), TypeError>
    ensures { Works (λ it. it) m.now (keeps_linkage storage word.now m.now) result }
{
    if storage.is_none() && is_internal_link(m.links.find(word.text.items())) {
        return Err(TypeError::Untyped(word.place));
    }
    Ok(())
}

/// An object of file scope. `internal` is whether the storage word is `static`.
fn file_object_as(
    alloc: Global,
    m: &mut Translator,
    internal: bool,
    storage: Option<Storage>,
    word: &Word,
    id: TypeId,
    it: Option<&Initialiser>,
) -> Result<(), TypeError>
    ensures { Works (λ it. it) m.new
        (file_object_as internal storage word.now id (option_map view_initialiser (option_copied it.entry)) m.old) result }
{
    must_be_object(m, word, id)?;
    may_be_tentative(m, internal, word, id, it)?;
    keeps_linkage(m, storage, word)?;
    note_tentative(m, storage, word, id, it)?;
    let its = linked(alloc, m, internal, word, id)?;
    object_with_start(alloc, m, internal, word, it, its)
}

/// Whether the storage word is `extern`.
fn is_extern(storage: Option<Storage>) -> bool
    ensures { result ≡ is_extern storage }
{
    match storage {
        Some(Storage::Extern) => true,
        Some(Storage::Typedef | Storage::Static) | None => false,
    }
}

/// Notes an object that a declaration of file scope makes, if its struct has no body yet: at the end of the unit it must have one (3.7.2).
fn note_tentative(
    m: &mut Translator,
    storage: Option<Storage>,
    word: &Word,
    id: TypeId,
    it: Option<&Initialiser>,
) -> Result<(), TypeError>
    ensures { Works (λ it. it) m.new (tentative storage word.now id (option_map view_initialiser (option_copied it.entry)) m.old) result }
{
    let types = &m.typer.types;
    if it.is_none() && !is_extern(storage) && !(is_complete(types, id) || is_open(types, id)) {
        let mark = mark_of(m)?;
        m.typer.tentatives.push(Tentative {
            at: word.place,
            mark,
            type_id: id,
        })?;
    }
    Ok(())
}

/// An object of file scope, by its storage word.
fn file_object(
    alloc: Global,
    m: &mut Translator,
    storage: Option<Storage>,
    word: &Word,
    id: TypeId,
    it: Option<&Initialiser>,
) -> Result<(), TypeError>
    ensures { Works (λ it. it) m.new (file_object storage word.now id (option_map view_initialiser (option_copied it.entry)) m.old) result }
{
    file_object_as(alloc, m, is_static(storage), storage, word, id, it)
}

/// A function that is declared, at any level, with the words of an inline trap, if there are some.
pub(crate) fn function_declared(
    alloc: Global,
    m: &mut Translator,
    internal: bool,
    word: &Word,
    id: TypeId,
    it: Option<&Initialiser>,
) -> Result<(), TypeError>
    ensures { Works (λ it. it) m.new (function_declared internal word.now id (option_map view_initialiser (option_copied it.entry)) m.old) result }
{
    linked(alloc, m, internal, word, id)?;
    match it {
        Some(words) => inline_words(alloc, &mut m.typer, words),
        None => Ok(()),
    }
}

/// An object or a function of file scope, by its type.
fn file_entity(
    alloc: Global,
    m: &mut Translator,
    storage: Option<Storage>,
    word: &Word,
    id: TypeId,
    it: Option<&Initialiser>,
) -> Result<(), TypeError>
    ensures { Works (λ it. it) m.new (file_entity storage word.now id (option_map view_initialiser (option_copied it.entry)) m.old) result }
{
    if is_function(&m.typer.types, id) {
        function_declared(alloc, m, is_static(storage), word, id, it)
    } else {
        file_object(alloc, m, storage, word, id, it)
    }
}

/// Whether the storage word is `static`.
///
/// Example: `false` if there is no storage word.
pub fn is_static(storage: Option<Storage>) -> bool
    ensures { result ≡ is_static storage }
{
    match storage {
        Some(Storage::Static) => true,
        Some(Storage::Typedef | Storage::Extern) | None => false,
    }
}

/// Whether the storage word is `typedef`.
///
/// Example: `false` if there is no storage word.
pub fn is_typedef_word(storage: Option<Storage>) -> bool
    ensures { result ≡ is_typedef_word storage }
{
    match storage {
        Some(Storage::Typedef) => true,
        Some(Storage::Extern | Storage::Static) | None => false,
    }
}

/// What a declarator of file scope names. Refused at the first specifier if it names nothing.
fn file_item_as(
    alloc: Global,
    m: &mut Translator,
    storage: Option<Storage>,
    at: Place,
    word: Option<&Word>,
    id: TypeId,
    it: Option<&Initialiser>,
) -> Result<(), TypeError>
    ensures { Works (λ it. it) m.new
        (file_item_as storage at (option_copied word.entry) id (option_map view_initialiser (option_copied it.entry)) m.old) result }
{
    match word {
        Some(name) => file_entity(alloc, m, storage, name, id, it),
        None => Err(TypeError::Untyped(at)),
    }
}

/// One declarator of file scope.
fn file_item(
    alloc: Global,
    m: &mut Translator,
    storage: Option<Storage>,
    at: Place,
    base: TypeId,
    it: &Item,
) -> Result<(), TypeError>
    ensures { Works (λ it. it) m.new (file_item storage at base (view_item it.now) m.old) result }
{
    let id = item_type(alloc, &mut m.typer, at, base, &it.declarator)?;
    let word = word_of(&it.declarator);
    file_item_as(alloc, m, storage, at, word, id, it.initialiser.as_ref())
}

/// The declarators of a declaration of file scope, in their order.
fn file_items(
    alloc: Global,
    m: &mut Translator,
    storage: Option<Storage>,
    at: Place,
    base: TypeId,
    its: &[Item],
) -> Result<(), TypeError>
    ensures { Works (λ it. it) m.new (file_items storage at base (map view_item its.now) m.old) result }
{
    'its: for it in its {
        file_item(alloc, m, storage, at, base, it)?;
    }
    Ok(())
}

/// Specifiers without a declarator, which must declare a tag or constants (3.5), and in a block are no typedef (own).
fn declared_alone(
    alloc: Global,
    m: &mut Translator,
    inside: bool,
    at: Place,
    its: &[Specifier],
) -> Result<(), TypeError>
    ensures { Works (λ it. it) m.new (declared_alone inside at (specification_of its.now) m.old) result }
{
    let said = front_of(alloc, &mut m.typer, at, its)?;
    if inside && is_typedef_word(said.storage) {
        return Err(TypeError::Untyped(storage_place(at, its)));
    }
    if !declares_any(its) {
        return Err(TypeError::Untyped(at));
    }
    Ok(())
}

/// A declaration without declarators: `struct tag;`, or others. `inside` is whether it stands in a block.
pub(crate) fn nothing_named(
    alloc: Global,
    m: &mut Translator,
    inside: bool,
    at: Place,
    its: &[Specifier],
) -> Result<(), TypeError>
    ensures { Works (λ it. it) m.new (nothing_named inside at (specification_of its.now) (lone_tag (specification_of its.now)) m.old) result }
{
    match lone_tag(its) {
        Some(word) => tag_alone(alloc, &mut m.typer, word),
        None => declared_alone(alloc, m, inside, at, its),
    }
}

/// The declarators of a declaration of file scope, by its storage word.
fn file_items_as(
    alloc: Global,
    m: &mut Translator,
    at: Place,
    its: &[Item],
    said: Front,
) -> Result<(), TypeError>
    ensures { Works (λ it. it) m.new (file_items_as at (map view_item its.now) said m.old) result }
{
    if is_typedef_word(said.storage) {
        typedef_items(alloc, m, at, said.type_id, its)
    } else {
        file_items(alloc, m, said.storage, at, said.type_id, its)
    }
}

/// A declaration of file scope, with or without declarators.
fn file_declared_at(
    alloc: Global,
    m: &mut Translator,
    at: Place,
    specifiers: &[Specifier],
    its: &[Item],
) -> Result<(), TypeError>
    ensures { Works (λ it. it) m.new (file_declared_at at (specification_of specifiers.now) (map view_item its.now) m.old) result }
{
    match its.split_first() {
        Some(_) => {
            let said = front_of(alloc, &mut m.typer, at, specifiers)?;
            file_items_as(alloc, m, at, its, said)
        }
        None => nothing_named(alloc, m, false, at, specifiers),
    }
}

/// A declaration of file scope (3.5). `other` is the place of one that begins with no specifier. Refused as `Untyped` if it does not meet
/// the constraints of C, and as a `Clash` if it does not fit another declaration of the name, in any unit, or if an object gets a second
/// initialiser.
///
/// Example: after `int x;`, `int x = 1;` gives the same object its initialiser, and then `int x = 2;` is refused at its `x`.
pub fn file_declaration(
    alloc: Global,
    m: &mut Translator,
    other: Place,
    it: &Decl,
) -> Result<(), TypeError>
    ensures { Works (λ it. it) m.new (file_declared other (view_declaration it.now) m.old) result }
{
    let at = first_place(other, &it.specifiers);
    file_declared_at(alloc, m, at, &it.specifiers, &it.items)
}
