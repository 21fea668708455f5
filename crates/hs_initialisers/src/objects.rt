//! Objects and what they start with (X3.159-1989 3.5.7).

ghost use Rattle.std.specs.Prelude.{◌≡◌, map};
ghost use Rattle.hs_typer.specs.Declarators.{untyped_end};
ghost use Rattle.hs_typer.specs.Steps.{Steps, Changes};
ghost use Rattle.hs_initialisers.specs.Initialisers.{all_of, sized, alone, listed, initialised, constant_start, assigned_start, starting};
ghost use Rattle.hs_syntax.specs.StatementViews.{initialisers_from};
ghost use Rattle.hs_syntax.specs.Views.{view, view_initialiser};
ghost use Rattle.hs_tree.specs.Views.{view_initial};
ghost use Rattle.hs_types.specs.TypeTables.{arrayed};

use crate::lists::{Filled, braced, number_of};
use crate::parts::{excess, simple};
use crate::texts::is_string;
use hs_aggregates::{Subobject, takes, text_kind};
use hs_expressions::value;
use hs_operands::assigned;
use hs_syntax::{Expr, Initialiser};
use hs_tokens::Place;
use hs_tree::{Initial, Part, Parts};
use hs_typer::{TypeError, Typer};
use hs_types::{Row, TypeEnd, TypeId, Types};
use std::alloc::Global;

/// The whole object.
fn all_of(id: TypeId) -> Subobject
    ensures { result ≡ all_of id }
{
    Subobject {
        offset: 0,
        type_id: id,
        field: None,
    }
}

/// The type of an array, refused at that place.
fn array_of(types: &mut Types, at: Place, of: TypeId, length: u32) -> Result<TypeId, TypeError>
    ensures { Changes (λ it. it) types.new (untyped_end at (arrayed of length types.old)) result }
{
    match types.array_of(of, length) {
        Ok(id) => Ok(id),
        Err(TypeEnd::NoMemory) => Err(TypeError::NoMemory),
        Err(TypeEnd::Incomplete | TypeEnd::TooLarge | TypeEnd::Redefined) => {
            Err(TypeError::Untyped(at))
        }
    }
}

/// The type of an object: an array has so many elements if its length was not known. Refused at its name if it is too large.
fn sized(types: &mut Types, at: Place, id: TypeId, count: u32) -> Result<TypeId, TypeError>
    ensures { Changes (λ it. it) types.new (sized at id count types.old) result }
{
    match types.row(id) {
        Some(Row::OpenArray(of)) => array_of(types, at, of, count),
        Some(
            Row::Void
            | Row::Integer(_)
            | Row::Pointer(_)
            | Row::Enumeration(_)
            | Row::Struct(_)
            | Row::Array { .. }
            | Row::Function { .. },
        )
        | None => Ok(id),
    }
}

/// The parts of an object that an expression alone initialises.
fn alone(alloc: Global, typer: &mut Typer, id: TypeId, e: &Expr) -> Result<Vec<Part>, TypeError>
    ensures { Steps (λ its. its.items) typer.new (alone id (view e.now) typer.old) result }
{
    let it = all_of(id);
    if takes(&typer.types, is_string(e), it) {
        simple(alloc, typer, it, e)
    } else {
        Err(excess(alloc, typer, e.position(), e))
    }
}

/// The type and the parts of an object that a list in braces initialises.
fn listed(
    alloc: Global,
    typer: &mut Typer,
    at: Place,
    id: TypeId,
    its: &[Initialiser],
) -> Result<(TypeId, Vec<Part>), TypeError>
    ensures { Steps (λ p. (p.0, p.1.items)) typer.new (listed at id (initialisers_from (map view_initialiser its.now)) typer.old) result }
{
    let filled = braced(alloc, typer, at, all_of(id), Vec::new(alloc), its)?;
    let Filled { parts, begun } = filled;
    let made = sized(&mut typer.types, at, id, begun.count())?;
    Ok((made, parts))
}

/// What an object of static storage duration starts with, or any object that a list or a string literal initialises: its type, in
/// which an array of unknown length has got its length, and constants for its scalars. `at` is the place of its name.
///
/// Example: `char s[] = "ab"` has the type `char[3]`, and 97, 98 and 0 for its elements.
#[tactic(auto, using(hs_syntax::specs::StatementLaws::initialisers_seen))]
pub fn initialised(
    alloc: Global,
    typer: &mut Typer,
    at: Place,
    id: TypeId,
    it: &Initialiser,
) -> Result<(TypeId, Vec<Part>), TypeError>
    ensures { Steps (λ p. (p.0, p.1.items)) typer.new (initialised at id (view_initialiser it.now) typer.old) result }
{
    match it {
        Initialiser::Value(e) => {
            let its = alone(alloc, typer, id, e)?;
            let made = sized(&mut typer.types, at, id, number_of(its.len())?)?;
            Ok((made, its))
        }
        Initialiser::List { values, .. } => listed(alloc, typer, at, id, values),
    }
}

/// What an automatic object starts with, if that is constants.
fn constant_start(
    alloc: Global,
    typer: &mut Typer,
    at: Place,
    id: TypeId,
    it: &Initialiser,
) -> Result<(TypeId, Initial), TypeError>
    ensures { Steps (λ p. (p.0, view_initial p.1)) typer.new
        (constant_start at id (view_initialiser it.now) typer.old) result }
{
    let (made, its) = initialised(alloc, typer, at, id, it)?;
    Ok((made, Initial::Parts(Parts::from_vec(its))))
}

/// What an automatic object starts with, if an expression initialises it: a value of its type, converted as by assignment.
fn assigned_start(
    alloc: Global,
    typer: &mut Typer,
    id: TypeId,
    e: &Expr,
) -> Result<(TypeId, Initial), TypeError>
    ensures { Steps (λ p. (p.0, view_initial p.1)) typer.new (assigned_start id (view e.now) typer.old) result }
{
    let its = value(alloc, typer, e)?;
    let converted = assigned(alloc, &typer.types, e.position(), id, its)?;
    Ok((id, Initial::Value(converted)))
}

/// What an automatic object starts with: its type, and a value of that type, or constants for its scalars if a list or a string
/// literal initialises it. `at` is the place of its name.
///
/// Example: `int x = y` starts with the value of `y`, and `int a[2] = {1}` with 1 for its first element.
pub fn starting(
    alloc: Global,
    typer: &mut Typer,
    at: Place,
    id: TypeId,
    it: &Initialiser,
) -> Result<(TypeId, Initial), TypeError>
    ensures { Steps (λ p. (p.0, view_initial p.1)) typer.new (starting at id (view_initialiser it.now) typer.old) result }
{
    match it {
        Initialiser::Value(e) => {
            if is_string(e) && text_kind(&typer.types, id).is_some() {
                constant_start(alloc, typer, at, id, it)
            } else {
                assigned_start(alloc, typer, id, e)
            }
        }
        Initialiser::List { .. } => constant_start(alloc, typer, at, id, it),
    }
}
