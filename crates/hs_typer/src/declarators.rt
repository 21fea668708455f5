//! Declarators (X3.159-1989 3.5.4): what is derived from a type.

ghost use Rattle.std.specs.Prelude.{◌≡◌, ◌++◌, suc, option_copied, IfOk};
ghost use Rattle.hs_typer.specs.Declarators.{constant_of, is_negative, length_of, is_function_row, is_array_row, untyped_end, derived_of, formed, parameter_row, parameter_type, listed, pointers_of, word_of, word_of_direct, place_of, is_typedef, declare};
ghost use Rattle.hs_typer.specs.Declaring.{list_of, declare_parameter, parameter};
ghost use Rattle.hs_typer.specs.Steps.{Gives, Steps, Changes};
ghost use Rattle.hs_syntax.specs.Views.{view_declarator, view_direct};
ghost use Rattle.hs_tree.specs.Views.{view_right};
ghost use Rattle.hs_types.specs.TypeTables.{row_of, arrayed};

use crate::{Entity, TypeError, Typer};
use hs_base::NoMemory;
use hs_constants::Value;
use hs_operand_types::constant_value;
use hs_syntax::{Declarator, Direct, Pointer, Word};
use hs_tokens::Place;
use hs_tree::{Rvalue, Variable};
use hs_types::{ListId, Parameters, Row, TypeEnd, TypeId, Types};
use std::alloc::Global;

/// What a declarator derives from a type.
#[derive(Clone, Copy)]
pub enum Derivation {
    Pointer,
    /// An array of so many elements.
    Array(u32),
    OpenArray,
    /// A function with these parameters.
    Function(ListId),
}

/// The value of an integral constant expression (3.4), in which nothing is divided by 0. Refused at its position.
///
/// Example: `sizeof(long) * 2` is 8; `1 / 0` is refused at the `/`.
pub fn constant_of(types: &Types, e: &Rvalue) -> Result<Value, TypeError>
    ensures { Gives (λ it. it) (constant_of types.now (view_right e.now)) result }
{
    let at = e.head().at;
    match constant_value(types, e) {
        Some(value) => {
            if value.fails {
                Err(TypeError::Untyped(at))
            } else {
                Ok(value)
            }
        }
        None => Err(TypeError::Untyped(at)),
    }
}

/// Whether a constant is below 0.
fn is_negative(value: Value) -> bool
    ensures { result ≡ is_negative value }
{
    !value.unsigned && value.bits >= 0x8000_0000
}

/// The length of an array (3.5.4.2): a constant greater than 0. Refused at its position.
///
/// Example: `0` is refused, and so is a constant below 0.
pub fn length_of(types: &Types, e: &Rvalue) -> Result<u32, TypeError>
    ensures { Gives (λ it. it) (length_of types.now (view_right e.now)) result }
{
    let value = constant_of(types, e)?;
    if value.bits < 1 || is_negative(value) {
        return Err(TypeError::Untyped(e.head().at));
    }
    Ok(value.bits)
}

/// Whether a type is a function.
fn is_function(types: &Types, id: TypeId) -> bool
    ensures { result ≡ is_function_row (row_of types.now id) }
{
    match types.row(id) {
        Some(Row::Function { .. }) => true,
        Some(
            Row::Void
            | Row::Integer(_)
            | Row::Pointer(_)
            | Row::Enumeration(_)
            | Row::Struct(_)
            | Row::Array { .. }
            | Row::OpenArray(_),
        )
        | None => false,
    }
}

/// Whether a type is an array.
fn is_array(types: &Types, id: TypeId) -> bool
    ensures { result ≡ is_array_row (row_of types.now id) }
{
    match types.row(id) {
        Some(Row::Array { .. } | Row::OpenArray(_)) => true,
        Some(
            Row::Void
            | Row::Integer(_)
            | Row::Pointer(_)
            | Row::Enumeration(_)
            | Row::Struct(_)
            | Row::Function { .. },
        )
        | None => false,
    }
}

/// The type that one derivation makes.
fn derived_of(
    types: &mut Types,
    at: Place,
    derivation: Derivation,
    of: TypeId,
) -> Result<TypeId, TypeError>
    ensures { Changes (λ it. it) types.new (derived_of at derivation of types.old) result }
{
    match derivation {
        Derivation::Pointer => {
            if is_function(types, of) {
                return Err(TypeError::Untyped(at));
            }
            Ok(types.add(Row::Pointer(of))?)
        }
        Derivation::Array(length) => array_of(types, at, of, length),
        Derivation::OpenArray => {
            if types.layout(of).is_none() {
                return Err(TypeError::Untyped(at));
            }
            Ok(types.add(Row::OpenArray(of))?)
        }
        Derivation::Function(parameters) => {
            if is_function(types, of) || is_array(types, of) {
                return Err(TypeError::Untyped(at));
            }
            Ok(types.add(Row::Function {
                result: of,
                parameters,
            })?)
        }
    }
}

/// The type of an array, refused at that place.
fn array_of(types: &mut Types, at: Place, of: TypeId, length: u32) -> Result<TypeId, TypeError>
    ensures { Changes (λ it. it) types.new (untyped_end at (arrayed of length types.old)) result }
{
    match types.array_of(of, length) {
        Ok(id) => Ok(id),
        Err(TypeEnd::NoMemory) => Err(TypeError::NoMemory),
        Err(TypeEnd::Incomplete | TypeEnd::TooLarge | TypeEnd::Redefined) => {
            Err(TypeError::Untyped(at))
        }
    }
}

/// The type that derivations make; the last one is applied first. Refused at that place.
///
/// Example: of `int *a[3]`, in which the pointer is the last one, an array of pointers.
#[tactic(auto, using(crate::proofs::Lists::formed_last, crate::proofs::Lists::formed_refused))]
pub fn formed(
    types: &mut Types,
    at: Place,
    derivations: &[Derivation],
    id: TypeId,
) -> Result<TypeId, TypeError>
    ensures { Changes (λ it. it) types.new (formed at derivations.now id types.old) result }
{
    let mut made = id;
    'derivations: for derivation in derivations.iter().rev() {
        made = derived_of(types, at, *derivation, made)?;
    }
    Ok(made)
}

/// The type of a parameter that is declared with that type (3.5.4.3).
fn parameter_row(types: &mut Types, at: Place, id: TypeId) -> Result<TypeId, TypeError>
    ensures { Changes (λ it. it) types.new (parameter_row at id (row_of types.old id) types.old) result }
{
    match types.row(id) {
        Some(Row::Integer(_) | Row::Pointer(_) | Row::Enumeration(_) | Row::Struct(_)) => Ok(id),
        Some(Row::Array { of, .. } | Row::OpenArray(of)) => Ok(types.add(Row::Pointer(of))?),
        Some(Row::Void | Row::Function { .. }) | None => Err(TypeError::Untyped(at)),
    }
}

/// The type of a parameter: an array is passed as the address of its first element.
fn parameter_type(
    types: &mut Types,
    at: Place,
    derivations: &[Derivation],
    id: TypeId,
) -> Result<TypeId, TypeError>
    ensures { Changes (λ it. it) types.new (parameter_type at derivations.now id types.old) result }
{
    let made = formed(types, at, derivations, id)?;
    parameter_row(types, at, made)
}

/// A list of parameter types.
#[tactic(auto, using(crate::proofs::Lists::listed_last))]
fn listed(types: &mut Types, ids: &[TypeId]) -> Result<ListId, NoMemory>
    ensures { IfOk result (λ it. listed ids.now types.old ≡ (it, types.new)) }
{
    let mut list = types.add_parameters(Parameters::Empty)?;
    'ids: for id in ids.iter().rev() {
        list = types.add_parameters(Parameters::More {
            first: *id,
            others: list,
        })?;
    }
    Ok(list)
}

/// A list of parameter types. Fails if memory runs out.
///
/// Example: the empty list, for `int f(void)`.
pub fn list_of(typer: &mut Typer, ids: &[TypeId]) -> Result<ListId, TypeError>
    ensures { Steps (λ it. it) typer.new (list_of ids.now typer.old) result }
{
    Ok(listed(&mut typer.types, ids)?)
}

/// The derivations, and a pointer for each `*` after them. Fails if memory runs out.
///
/// Example: two pointers for `**p`.
pub fn with_pointers(
    derivations: Vec<Derivation>,
    pointers: &[Pointer],
) -> Result<Vec<Derivation>, NoMemory>
    ensures { IfOk result (λ its. its.items ≡ derivations.items ++ pointers_of pointers.now) }
{
    let mut its = derivations;
    'pointers: for pointer in pointers {
        match pointer {
            Pointer::Star(_) => its.push(Derivation::Pointer)?,
            Pointer::Dropped(_, _) => {}
        }
    }
    Ok(its)
}

/// The word that a declarator names, if there is one.
///
/// Example: `a` in `*a[3]`, and `None` in `*[3]`.
pub fn word_of(declarator: &Declarator) -> Option<&Word>
    ensures { option_copied result ≡ word_of (view_declarator declarator.now) }
{
    let mut direct = &declarator.direct;
    'direct: loop {
        match direct {
            Direct::Empty => return None,
            Direct::Name(word) => return Some(word),
            Direct::Parens(inner) => direct = &inner.direct,
            Direct::Array(base)
            | Direct::Sized { base, .. }
            | Direct::Function { base, .. }
            | Direct::FunctionOfVoid { base, .. } => direct = base,
        }
    }
}

/// The place of what a declarator names, or the other one if it names nothing.
///
/// Example: the place of `a` in `*a[3]`.
pub fn place_of(other: Place, declarator: &Declarator) -> Place
    ensures { result ≡ place_of other (view_declarator declarator.now) }
{
    match word_of(declarator) {
        Some(word) => word.place,
        None => other,
    }
}

/// Whether a name means a type.
fn is_typedef(entity: Option<Entity>) -> bool
    ensures { result ≡ is_typedef entity }
{
    match entity {
        Some(Entity::Typedef(_)) => true,
        Some(Entity::Constant(_) | Entity::Variable { .. } | Entity::Function { .. }) | None => {
            false
        }
    }
}

/// Declares a name in the innermost scope (3.1.2.1). Refused at the name if it is declared there already, or is a typedef name (own).
///
/// Example: a second `x` in one scope is refused.
pub fn declare(
    alloc: Global,
    typer: &mut Typer,
    word: &Word,
    entity: Entity,
) -> Result<(), TypeError>
    ensures { Steps (λ it. it) typer.new (declare word.now entity typer.old) result }
{
    let name = word.text.items();
    if is_typedef(typer.names.find(name)) || typer.names.find_here(name).is_some() {
        return Err(TypeError::Untyped(word.place));
    }
    typer.names.declare(alloc, name, entity)?;
    Ok(())
}

/// Declares a parameter, if it is named.
fn declare_parameter(
    alloc: Global,
    typer: &mut Typer,
    word: Option<&Word>,
    place: u32,
    type_id: TypeId,
) -> Result<(), TypeError>
    ensures { Steps (λ it. it) typer.new (declare_parameter (option_copied word.entry) place type_id typer.old) result }
{
    match word {
        Some(word) => {
            let variable = Variable::Local(place);
            declare(alloc, typer, word, Entity::Variable { variable, type_id })
        }
        None => Ok(()),
    }
}

/// The type of a parameter, which is declared if it is named. Refused at its name, or at the first of its specifiers if it has none.
///
/// Example: `char s[]` has the type `char *`.
pub fn parameter(
    alloc: Global,
    typer: &mut Typer,
    first: Place,
    derivations: &[Derivation],
    base: TypeId,
    declarator: &Declarator,
    place: u32,
) -> Result<TypeId, TypeError>
    ensures { Steps (λ it. it) typer.new (parameter first derivations.now base (view_declarator declarator.now) place typer.old) result }
{
    let at = place_of(first, declarator);
    let id = parameter_type(&mut typer.types, at, derivations, base)?;
    declare_parameter(alloc, typer, word_of(declarator), place, id)?;
    Ok(id)
}

/// The place of the next parameter. There are no more than 4294967295.
///
/// Example: 1 after 0.
pub fn next_place(place: u32) -> Result<u32, NoMemory>
    ensures { IfOk result (λ next. next ≡ suc place) }
{
    place.checked_add(1).ok_or(NoMemory)
}
