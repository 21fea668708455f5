//! The scalars of objects, with what they start with (X3.159-1989 3.5.7).

ghost use Rattle.std.specs.Prelude.{◌≡◌, ◌∷◌, ◌++◌, [], IfOk};
ghost use Rattle.hs_typer.specs.Steps.{Gives, Steps, Refuses};
ghost use Rattle.hs_initialisers.specs.Initialisers.{part_of, scalar, excess, simple};
ghost use Rattle.hs_syntax.specs.Views.{view};
ghost use Rattle.hs_tree.specs.Views.{view_right};

use crate::texts::{is_string, text_of};
use hs_aggregates::{Subobject, constant_in, text_kind};
use hs_base::NoMemory;
use hs_expressions::value;
use hs_operands::assigned;
use hs_syntax::Expr;
use hs_tokens::Place;
use hs_tree::{Part, Rvalue};
use hs_typer::{TypeError, Typer};
use hs_types::Types;
use std::alloc::Global;

/// A value as a constant for a scalar, converted to its type as by assignment.
fn part_of(
    alloc: Global,
    types: &Types,
    it: Subobject,
    at: Place,
    e: Box<Rvalue>,
) -> Result<Part, TypeError>
    ensures { Gives (λ part. part) (part_of it at (view_right e.value) types.now) result }
{
    let converted = assigned(alloc, types, at, it.type_id, e)?;
    let Some(constant) = constant_in(types, &converted)? else {
        return Err(TypeError::Untyped(at));
    };
    Ok(Part {
        offset: it.offset,
        type_id: it.type_id,
        field: it.field,
        value: constant,
    })
}

/// The scalar that an expression initialises.
fn scalar(alloc: Global, typer: &mut Typer, it: Subobject, e: &Expr) -> Result<Vec<Part>, TypeError>
    ensures { Steps (λ its. its.items) typer.new (scalar it (view e.now) typer.old) result }
{
    let its = value(alloc, typer, e)?;
    let part = part_of(alloc, &typer.types, it, e.position(), its)?;
    Ok(alone(alloc, part)?)
}

/// The list of one part.
fn alone(alloc: Global, part: Part) -> Result<Vec<Part>, NoMemory>
    ensures { IfOk result (λ its. its.items ≡ part ∷ []) }
{
    let mut its = Vec::new(alloc);
    its.push(part)?;
    Ok(its)
}

/// The refusal of an expression that has nothing left to initialise: at that place, unless the expression itself is refused.
pub(crate) fn excess(alloc: Global, typer: &mut Typer, at: Place, e: &Expr) -> TypeError
    ensures { Refuses (excess at (view e.now) typer.old) result }
{
    match value(alloc, typer, e) {
        Ok(_) => TypeError::Untyped(at),
        Err(why) => why,
    }
}

/// The parts of a scalar, or of an array of characters that a string literal initialises.
pub(crate) fn simple(
    alloc: Global,
    typer: &mut Typer,
    it: Subobject,
    e: &Expr,
) -> Result<Vec<Part>, TypeError>
    ensures { Steps (λ its. its.items) typer.new (simple it (view e.now) typer.old) result }
{
    if is_string(e) && text_kind(&typer.types, it.type_id).is_some() {
        text_of(alloc, &typer.types, it, e)
    } else {
        scalar(alloc, typer, it, e)
    }
}

/// The parts, and then the others.
pub(crate) fn joined(done: Vec<Part>, its: Vec<Part>) -> Result<Vec<Part>, NoMemory>
    ensures { IfOk result (λ all. all.items ≡ done.items ++ its.items) }
{
    let mut all = done;
    all.extend_from_slice(&its)?;
    Ok(all)
}
