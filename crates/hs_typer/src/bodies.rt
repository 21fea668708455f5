//! Tags, and the bodies of structs and enumerations (X3.159-1989 3.5.2.1 to 3.5.2.3).

ghost use Rattle.std.specs.Prelude.{◌≡◌, option_copied};
ghost use Rattle.hs_names.specs.Scopes.{find};
ghost use Rattle.hs_tree.specs.Views.{view_right};
ghost use Rattle.hs_typer.specs.Specifiers.{struct_type, enumeration_type, new_struct, is_outermost, new_tagged_struct, tagged_struct, begun_struct, has_open_body, opened_struct, tagged_enumeration, new_tagged_enumeration, begun_enumeration, with_member, completed_struct, completed_enumeration, struct_with_body, enumeration_with_body, refused_body, is_int, int_of, next_bits, then_next, enumerator};
ghost use Rattle.hs_typer.specs.Steps.{Gives, Steps, Changes};

use crate::closing::closed;
use crate::{
    Derivation, Entity, Members, Tag, TypeError, Typer, constant_of, copied, declare, formed,
    undeclared,
};
use hs_constants::Value;
use hs_names::Scopes;
use hs_syntax::Word;
use hs_tokens::Place;
use hs_tree::Rvalue;
use hs_types::{Constants, Enumerator, Row, TypeEnd, TypeId, Types};
use std::alloc::Global;

/// The type of a struct, by its number. Fails if memory runs out.
///
/// Example: the same type each time.
pub fn struct_type(typer: &mut Typer, number: u32) -> Result<TypeId, TypeError>
    ensures { Steps (λ it. it) typer.new (struct_type number typer.old) result }
{
    Ok(typer.types.add(Row::Struct(number))?)
}

/// The type of an enumeration, by its number. Fails if memory runs out.
///
/// Example: the same type each time.
pub fn enumeration_type(typer: &mut Typer, number: u32) -> Result<TypeId, TypeError>
    ensures { Steps (λ it. it) typer.new (enumeration_type number typer.old) result }
{
    Ok(typer.types.add(Row::Enumeration(number))?)
}

/// A new struct without a tag.
fn new_struct(alloc: Global, typer: &mut Typer) -> Result<u32, TypeError>
    ensures { Steps (λ it. it) typer.new (new_struct typer.old) result }
{
    let number = typer.types.declare_struct()?;
    typer.origins.add_struct(alloc, false, None)?;
    Ok(number)
}

/// Whether names are declared at file scope here.
fn is_outermost(typer: &Typer) -> bool
    ensures { result ≡ is_outermost typer.now }
{
    typer.tags.is_outermost()
}

/// A new struct with a tag, in the innermost scope.
fn new_tagged_struct(alloc: Global, typer: &mut Typer, word: &Word) -> Result<u32, TypeError>
    ensures { Steps (λ it. it) typer.new (new_tagged_struct word.now typer.old) result }
{
    let number = typer.types.declare_struct()?;
    let tag = Tag::Struct(number);
    typer.tags.declare(alloc, word.text.items(), tag)?;
    let name = copied(alloc, word.text.items())?;
    let outer = is_outermost(typer);
    typer.origins.add_struct(alloc, outer, Some(name))?;
    Ok(number)
}

/// The struct that `struct tag` means (3.5.2.3), or a new one. Refused at the tag if it means an enumeration.
///
/// Example: the tag may be of a scope outside.
pub fn tagged_struct(alloc: Global, typer: &mut Typer, word: &Word) -> Result<u32, TypeError>
    ensures { Steps (λ it. it) typer.new (tagged_struct word.now typer.old) result }
{
    match typer.tags.find(word.text.items()) {
        Some(Tag::Struct(number)) => Ok(number),
        Some(Tag::Enumeration(_)) => Err(TypeError::Untyped(word.place)),
        None => new_tagged_struct(alloc, typer, word),
    }
}

/// Whether the body of the struct of that number has begun and is not complete.
fn has_open_body(typer: &Typer, number: u32) -> bool
    ensures { result ≡ has_open_body number typer.now }
{
    typer.open_bodies.items().iter().any(|it| number == *it)
}

/// The struct whose body can begin: one of the innermost scope that has none yet, or a new one. Refused at the tag if it has one, or is
/// inside its own body.
///
/// Example: that of `struct S;` in `struct S { int a; }` after it.
pub fn begun_struct(alloc: Global, typer: &mut Typer, tag: Option<&Word>) -> Result<u32, TypeError>
    ensures { Steps (λ it. it) typer.new (begun_struct (option_copied tag.entry) typer.old) result }
{
    let Some(word) = tag else {
        return new_struct(alloc, typer);
    };
    match typer.tags.find_here(word.text.items()) {
        Some(Tag::Struct(number)) => {
            if !typer.types.struct_awaits_body(number) || has_open_body(typer, number) {
                return Err(TypeError::Untyped(word.place));
            }
            Ok(number)
        }
        Some(Tag::Enumeration(_)) => Err(TypeError::Untyped(word.place)),
        None => new_tagged_struct(alloc, typer, word),
    }
}

/// The struct whose body begins, which is open from now on. Refused as by `begun_struct`.
///
/// Example: the inner `struct S` of `struct S { struct S { int a; } b; }` is refused.
pub fn opened_struct(alloc: Global, typer: &mut Typer, tag: Option<&Word>) -> Result<u32, TypeError>
    ensures { Steps (λ it. it) typer.new (opened_struct (option_copied tag.entry) typer.old) result }
{
    let number = begun_struct(alloc, typer, tag)?;
    typer.open_bodies.push(number)?;
    typer.begun.push(number)?;
    Ok(number)
}

/// The enumeration that `enum tag` means. Refused at the tag if it is not declared.
///
/// Example: `enum E` in front of `enum E { A };` is refused.
pub fn tagged_enumeration(alloc: Global, tags: &Scopes<Tag>, word: &Word) -> Result<u32, TypeError>
    ensures { Gives (λ it. it) (tagged_enumeration word.now (find word.now.text tags.now)) result }
{
    match tags.find(word.text.items()) {
        Some(Tag::Enumeration(number)) => Ok(number),
        Some(Tag::Struct(_)) => Err(TypeError::Untyped(word.place)),
        None => Err(undeclared(alloc, word)?),
    }
}

/// A new enumeration with a tag, in the innermost scope.
fn new_tagged_enumeration(alloc: Global, typer: &mut Typer, word: &Word) -> Result<u32, TypeError>
    ensures { Steps (λ it. it) typer.new (new_tagged_enumeration word.now typer.old) result }
{
    let number = typer.types.declare_enumeration()?;
    let tag = Tag::Enumeration(number);
    typer.tags.declare(alloc, word.text.items(), tag)?;
    typer.origins.enumerations.push(None)?;
    Ok(number)
}

/// The enumeration whose body begins: a new one. Refused at the tag if it means something in the innermost scope.
///
/// Example: a second `enum E { A }` of one scope is refused.
pub fn begun_enumeration(
    alloc: Global,
    typer: &mut Typer,
    tag: Option<&Word>,
) -> Result<u32, TypeError>
    ensures { Steps (λ it. it) typer.new (begun_enumeration (option_copied tag.entry) typer.old) result }
{
    let Some(word) = tag else {
        let number = typer.types.declare_enumeration()?;
        typer.origins.enumerations.push(None)?;
        return Ok(number);
    };
    if typer.tags.find_here(word.text.items()).is_some() {
        return Err(TypeError::Untyped(word.place));
    }
    new_tagged_enumeration(alloc, typer, word)
}

/// The members with one more. Refused at its name if there is one of that name, or if its type is incomplete.
///
/// Example: of `int a; char a;` the second is refused.
pub fn with_member(
    alloc: Global,
    types: &mut Types,
    at: Place,
    done: Members,
    id: TypeId,
    derivations: &[Derivation],
    word: Option<&Word>,
) -> Result<Members, TypeError>
    ensures { Changes (λ it. it) types.new (with_member at done id derivations.now (option_copied word.entry) types.old) result }
{
    let Some(word) = word else {
        return Err(TypeError::Untyped(at));
    };
    let made = formed(types, word.place, derivations, id)?;
    if types.layout(made).is_none() || done.has(word.text.items()) {
        return Err(TypeError::Untyped(word.place));
    }
    Ok(done.with(alloc, word.text.items(), made)?)
}

/// Gives a struct its body, which begins at that brace and is the innermost open one. Refused at the first specifier if it is too large, at
/// the tag if it got a body meanwhile, and at the brace if the first body that began there has other members.
///
/// Example: the body of a header that two units include makes one type of two structs.
pub fn completed_struct(
    alloc: Global,
    typer: &mut Typer,
    first: Place,
    tag: Option<&Word>,
    brace: Place,
    number: u32,
    members: Members,
) -> Result<(), TypeError>
    ensures { Steps (λ it. it) typer.new (completed_struct first (option_copied tag.entry) brace number members typer.old) result }
{
    typer.open_bodies.drop_last();
    struct_with_body(alloc, typer, first, tag, number, members)?;
    closed(alloc, typer, brace, Tag::Struct(number))
}

/// Gives a struct its body.
fn struct_with_body(
    alloc: Global,
    typer: &mut Typer,
    first: Place,
    tag: Option<&Word>,
    number: u32,
    members: Members,
) -> Result<(), TypeError>
    ensures { Steps (λ it. it) typer.new (struct_with_body first (option_copied tag.entry) number members typer.old) result }
{
    let members = members.into_vec();
    match typer.types.complete_struct(alloc, number, members) {
        Ok(()) => Ok(()),
        Err(why) => Err(refused_body(first, tag, why)),
    }
}

/// Gives an enumeration its constants. Its body begins at that brace. Refused at the brace if the first body that began there has others.
///
/// Example: the body of a header that two units include makes one type of two enumerations.
pub fn completed_enumeration(
    alloc: Global,
    typer: &mut Typer,
    first: Place,
    tag: Option<&Word>,
    brace: Place,
    number: u32,
    constants: Constants,
) -> Result<(), TypeError>
    ensures { Steps (λ it. it) typer.new (completed_enumeration first (option_copied tag.entry) brace number constants typer.old) result }
{
    enumeration_with_body(typer, first, tag, number, constants)?;
    closed(alloc, typer, brace, Tag::Enumeration(number))
}

/// Gives an enumeration its constants.
fn enumeration_with_body(
    typer: &mut Typer,
    first: Place,
    tag: Option<&Word>,
    number: u32,
    constants: Constants,
) -> Result<(), TypeError>
    ensures { Steps (λ it. it) typer.new (enumeration_with_body first (option_copied tag.entry) number constants typer.old) result }
{
    match typer.types.complete_enumeration(number, constants) {
        Ok(()) => Ok(()),
        Err(why) => Err(refused_body(first, tag, why)),
    }
}

/// The refusal of a body.
fn refused_body(first: Place, tag: Option<&Word>, why: TypeEnd) -> TypeError
    ensures { result ≡ refused_body first (option_copied tag.entry) why }
{
    match (why, tag) {
        (TypeEnd::NoMemory, _) => TypeError::NoMemory,
        (TypeEnd::Redefined, Some(word)) => TypeError::Untyped(word.place),
        (TypeEnd::Redefined, None) | (TypeEnd::Incomplete | TypeEnd::TooLarge, _) => {
            TypeError::Untyped(first)
        }
    }
}

/// Whether a constant is an `int`.
fn is_int(value: Value) -> bool
    ensures { result ≡ is_int value }
{
    !(value.unsigned && value.bits >= 0x8000_0000)
}

/// The value of an enumeration constant (3.5.2.2): an `int`. Refused at its position.
///
/// Example: `0x80000000` is refused.
pub fn int_of(types: &Types, e: &Rvalue) -> Result<u32, TypeError>
    ensures { Gives (λ it. it) (int_of types.now (view_right e.now)) result }
{
    let value = constant_of(types, e)?;
    if !is_int(value) {
        return Err(TypeError::Untyped(e.head().at));
    }
    Ok(value.bits)
}

/// The value of the constant after one with that value, if it is an `int`.
///
/// Example: 0 after the bits of -1, and `None` after the largest.
pub fn next_bits(bits: u32) -> Option<u32>
    ensures { result ≡ next_bits bits }
{
    match bits {
        0x7fff_ffff => None,
        0xffff_ffff => Some(0),
        _ => Some(bits + 1),
    }
}

/// The value of the constant after the one with that value, if it has one.
///
/// Example: `None` after `None`.
pub fn next_of(bits: Option<u32>) -> Option<u32>
    ensures { result ≡ then_next bits }
{
    next_bits(bits?)
}

/// The constants with one more, which is declared. Refused at its name if its value is no `int`.
///
/// Example: the second `A` of `enum { A, A }` is refused.
pub fn enumerator(
    alloc: Global,
    typer: &mut Typer,
    done: Vec<Enumerator>,
    word: &Word,
    bits: Option<u32>,
) -> Result<Vec<Enumerator>, TypeError>
    ensures { Steps (λ its. its.items) typer.new (enumerator done.items word.now bits typer.old) result }
{
    let Some(bits) = bits else {
        return Err(TypeError::Untyped(word.place));
    };
    declare(alloc, typer, word, Entity::Constant(bits))?;
    let name = copied(alloc, word.text.items())?;
    let mut its = done;
    its.push(Enumerator { name, bits })?;
    Ok(its)
}
