//! Names, constants and strings (X3.159-1989 3.1.3, 3.1.4 and 3.3.1).

ghost use Rattle.std.specs.Prelude.{◌≡◌, ◌∷◌, length, Some, IfOk};
ghost use Rattle.hs_typer.specs.Primaries.{number, named, is_wide, number_type, number_of, character_of, joined_words, string_bytes, string_as, string_of};
ghost use Rattle.hs_typer.specs.Steps.{Gives, Steps};
ghost use Rattle.hs_operand_types.specs.Operands.{view_operand};

use hs_base::{Bytes, NoMemory};
use hs_constants::{Number, character_value, number_value, string_value};
use hs_names::Scopes;
use hs_operand_types::{Designator, Operand};
use hs_syntax::Word;
use hs_tokens::Place;
use hs_tree::{Head, Lvalue, Rvalue};
use hs_typer::{Entity, TypeError, Typer, copied, undeclared};
use hs_types::{Integer, TypeEnd, TypeId};
use std::alloc::Global;

/// What a name designates (3.3.1).
pub(crate) fn named(
    alloc: Global,
    names: &Scopes<Entity>,
    word: &Word,
) -> Result<Operand, TypeError>
    ensures { Gives view_operand (named names.now word.now) result }
{
    let at = word.place;
    match names.find(word.text.items()) {
        Some(Entity::Constant(bits)) => Ok(number(alloc, at, Integer::Int, bits)?),
        Some(Entity::Variable { variable, type_id }) => {
            let head = Head { at, type_id };
            Ok(Operand::Object(Box::new(alloc, Lvalue::Variable { head, variable })?))
        }
        Some(Entity::Function { type_id, bound }) => {
            let head = Head { at, type_id };
            let name = copied(alloc, word.text.items())?;
            Ok(Operand::Function(Designator { head, name, bound }))
        }
        Some(Entity::Typedef(_)) => Err(TypeError::Untyped(at)),
        None => Err(undeclared(alloc, word)?),
    }
}

/// A number.
fn number(alloc: Global, at: Place, kind: Integer, bits: u32) -> Result<Operand, NoMemory>
    ensures { IfOk result (λ it. view_operand it ≡ number at kind bits) }
{
    let head = Head {
        at,
        type_id: TypeId::integer(kind),
    };
    Ok(Operand::Value(Box::new(alloc, Rvalue::Number { head, bits })?))
}

/// Whether a number is too large for `int` and `long`.
fn is_wide(value: u32) -> bool
    ensures { result ≡ is_wide value }
{
    value >= 0x8000_0000
}

/// The type of an integer constant (3.1.3.2): the first type of its list that has the value.
fn number_type(it: Number) -> Integer
    ensures { result ≡ number_type it }
{
    if it.unsigned {
        if it.long {
            Integer::UnsignedLong
        } else {
            Integer::UnsignedInt
        }
    } else if it.long {
        if is_wide(it.value) {
            Integer::UnsignedLong
        } else {
            Integer::Long
        }
    } else if is_wide(it.value) {
        if it.decimal {
            Integer::UnsignedLong
        } else {
            Integer::UnsignedInt
        }
    } else {
        Integer::Int
    }
}

/// An integer constant.
pub(crate) fn number_of(alloc: Global, word: &Word) -> Result<Operand, TypeError>
    ensures { Gives view_operand (number_of word.now) result }
{
    let Some(it) = number_value(word.text.items()) else {
        return Err(TypeError::Untyped(word.place));
    };
    Ok(number(alloc, word.place, number_type(it), it.value)?)
}

/// A character constant.
pub(crate) fn character_of(alloc: Global, word: &Word) -> Result<Operand, TypeError>
    ensures { Gives view_operand (character_of word.now) result }
{
    let Some(bits) = character_value(word.text.items()) else {
        return Err(TypeError::Untyped(word.place));
    };
    Ok(number(alloc, word.place, Integer::Int, bits)?)
}

/// The bytes, then those of the literals, then the byte 0.
fn joined_words(alloc: Global, front: Bytes, words: &[Word]) -> Result<Option<Bytes>, NoMemory>
    ensures { IfOk result (λ bytes. bytes ≡ joined_words (Some front) words.now) }
{
    let mut bytes = front.items().to_vec(alloc)?;
    'words: for word in words {
        let Some(more) = string_value(alloc, word.text.items())? else {
            return Ok(None);
        };
        bytes.extend_from_slice(more.items())?;
    }
    bytes.push(0)?;
    Ok(Some(Bytes::from_vec(bytes)))
}

/// The bytes of a string and of its neighbours, and the byte 0; or `None` if one of them is no string (3.1.4).
///
/// Example: 97, 98 and 0 for `"a" "b"`.
pub fn string_bytes(alloc: Global, first: &Word, others: &[Word]) -> Result<Option<Bytes>, NoMemory>
    ensures { IfOk result (λ bytes. bytes ≡ string_bytes first.now others.now) }
{
    match string_value(alloc, first.text.items())? {
        Some(front) => joined_words(alloc, front, others),
        None => Ok(None),
    }
}

/// A string (3.1.4): an array of characters, which is an object if it is evaluated.
pub(crate) fn string_of(
    alloc: Global,
    typer: &mut Typer,
    first: &Word,
    others: &[Word],
) -> Result<Operand, TypeError>
    ensures { Steps view_operand typer.new (string_of first.now others.now typer.old) result }
{
    let Some(bytes) = string_bytes(alloc, first, others)? else {
        return Err(TypeError::Untyped(first.place));
    };
    string_as(alloc, typer, first.place, bytes)
}

/// The array of these characters.
fn string_as(
    alloc: Global,
    typer: &mut Typer,
    at: Place,
    bytes: Bytes,
) -> Result<Operand, TypeError>
    ensures { Steps view_operand typer.new (string_as at (Some bytes) typer.old) result }
{
    let literal = next_number(typer.literals.items().len())?;
    let length = next_number(bytes.items().len())?;
    let character = TypeId::integer(Integer::Char);
    let type_id = match typer.types.array_of(character, length) {
        Ok(type_id) => type_id,
        Err(TypeEnd::NoMemory) => return Err(TypeError::NoMemory),
        Err(TypeEnd::Incomplete | TypeEnd::TooLarge | TypeEnd::Redefined) => {
            return Err(TypeError::Untyped(at));
        }
    };
    if typer.counts {
        typer.literals.push(bytes)?;
    }
    let head = Head { at, type_id };
    Ok(Operand::Object(Box::new(alloc, Lvalue::Literal { head, literal })?))
}

/// A count as a number. There are no more than 4294967295.
fn next_number(count: usize) -> Result<u32, NoMemory>
    ensures { IfOk result (λ number. number ≡ count) }
{
    match u32::try_from(count) {
        Ok(number) => Ok(number),
        Err(_) => Err(NoMemory),
    }
}
