//! The parts of a declaration that give a type (X3.159-1989 3.5), and declarations without declarators.

ghost use Rattle.std.specs.Prelude.{◌≡◌, option_copied};
ghost use Rattle.hs_declarations.specs.Fronts.{front, item_type, tag_alone, tag_of, lone_tag, declares, declares_any, storage_place, place_of_start};
ghost use Rattle.hs_expressions.specs.Expressions.{first_place};
ghost use Rattle.hs_syntax.specs.Views.{view_specifier, view_declarator, view_initialiser, specification_of};
ghost use Rattle.hs_typer.specs.Steps.{Steps};

use hs_expressions::{derivations, specifiers};
use hs_syntax::{Declarator, Initialiser, Specifier, Storage, Word, first_of_specifiers};
use hs_tokens::Place;
use hs_typer::{Tag, TypeError, Typer, begun_struct, formed, place_of};
use hs_types::TypeId;
use std::alloc::Global;

/// What the specifiers of a declaration say: the storage word, and the type.
#[derive(Clone, Copy)]
pub struct Front {
    pub storage: Option<Storage>,
    /// The type that they name.
    pub type_id: TypeId,
}

/// Returns the place of the first specifier, or the other place if there are no specifiers.
///
/// Example: the place of `static` in `static int x;`.
pub fn first_place(other: Place, its: &[Specifier]) -> Place
    ensures { result ≡ first_place other (specification_of its.now) }
{
    match first_of_specifiers(its) {
        Some(first) => first,
        None => other,
    }
}

/// What the specifiers of a declaration say (3.5.1 to 3.5.3). `at` is the place of the first one. Refused as `Untyped` at that place if
/// they do not go together.
///
/// Example: no storage word and the type `int` for no specifiers.
pub fn front_of(
    alloc: Global,
    typer: &mut Typer,
    at: Place,
    its: &[Specifier],
) -> Result<Front, TypeError>
    ensures { Steps (λ it. it) typer.new (front at (specification_of its.now) typer.old) result }
{
    let said = specifiers(alloc, typer, true, at, its)?;
    let type_id = said.type_from(at)?;
    Ok(Front {
        storage: said.storage,
        type_id,
    })
}

/// The type that a declarator makes of that of the specifiers (3.5.4). Refused at its name, or at that place if it names nothing.
///
/// Example: an array of three pointers for `*a[3]`.
pub fn item_type(
    alloc: Global,
    typer: &mut Typer,
    at: Place,
    base: TypeId,
    it: &Declarator,
) -> Result<TypeId, TypeError>
    ensures { Steps (λ id. id) typer.new (item_type at base (view_declarator it.now) typer.old) result }
{
    let its = derivations(alloc, typer, at, it)?;
    formed(&mut typer.types, place_of(at, it), &its, base)
}

/// `struct tag;` declares the tag in the innermost scope, unless it is one of that scope (3.5.2.3).
pub(crate) fn tag_alone(alloc: Global, typer: &mut Typer, word: &Word) -> Result<(), TypeError>
    ensures { Steps (λ it. it) typer.new (tag_alone word.now typer.old) result }
{
    match typer.tags.find_here(word.text.items()) {
        Some(Tag::Struct(_)) => Ok(()),
        Some(Tag::Enumeration(_)) => Err(TypeError::Untyped(word.place)),
        None => {
            begun_struct(alloc, typer, Some(word))?;
            Ok(())
        }
    }
}

/// The tag of a specifier that is `struct tag`.
fn tag_of(it: &Specifier) -> Option<&Word>
    ensures { option_copied result ≡ tag_of (view_specifier it.now) }
{
    match it {
        Specifier::StructTag { tag, .. } => Some(tag),
        Specifier::Storage(_, _)
        | Specifier::Dropped(_, _)
        | Specifier::Basic(_, _)
        | Specifier::Named(_)
        | Specifier::Struct { .. }
        | Specifier::EnumTag { .. }
        | Specifier::Enum { .. } => None,
    }
}

/// The tag, if `struct tag` is all that the specifiers say.
pub(crate) fn lone_tag(its: &[Specifier]) -> Option<&Word>
    ensures { option_copied result ≡ lone_tag (specification_of its.now) }
{
    let (first, rest) = its.split_first()?;
    match rest.split_first() {
        Some(_) => None,
        None => tag_of(first),
    }
}

/// Whether a specifier declares a tag, or constants of an enumeration.
fn declares(it: &Specifier) -> bool
    ensures { result ≡ declares (view_specifier it.now) }
{
    match it {
        Specifier::StructTag { .. } | Specifier::EnumTag { .. } | Specifier::Enum { .. } => true,
        Specifier::Struct { tag, .. } => tag.is_some(),
        Specifier::Storage(_, _)
        | Specifier::Dropped(_, _)
        | Specifier::Basic(_, _)
        | Specifier::Named(_) => false,
    }
}

/// Whether one of the specifiers does.
pub(crate) fn declares_any(its: &[Specifier]) -> bool
    ensures { result ≡ declares_any (specification_of its.now) }
{
    'its: for it in its {
        if declares(it) {
            return true;
        }
    }
    false
}

/// Returns the place of the storage word, or the other place if there is no storage word.
///
/// Example: the place of `typedef` in `typedef int T;`.
pub fn storage_place(other: Place, its: &[Specifier]) -> Place
    ensures { result ≡ storage_place other (specification_of its.now) }
{
    'its: for it in its {
        match it {
            Specifier::Storage(_, at) => return *at,
            Specifier::Dropped(_, _)
            | Specifier::Basic(_, _)
            | Specifier::Named(_)
            | Specifier::StructTag { .. }
            | Specifier::Struct { .. }
            | Specifier::EnumTag { .. }
            | Specifier::Enum { .. } => {}
        }
    }
    other
}

/// The place of an initialiser: the position of an expression, or the `{` of a list.
pub(crate) fn place_of_start(it: &Initialiser) -> Place
    ensures { result ≡ place_of_start (view_initialiser it.now) }
{
    match it {
        Initialiser::Value(e) => e.position(),
        Initialiser::List { at, .. } => *at,
    }
}
