//! Lists of initialisers in braces (X3.159-1989 3.5.7).

ghost use Rattle.std.specs.Prelude.{◌≡◌, ◌∷◌, [], map, option_map, IfOk};
ghost use Rattle.hs_typer.specs.Steps.{Gives, Steps};
ghost use Rattle.hs_aggregates.specs.Aggregates.{fresh, whole};
ghost use Rattle.hs_initialisers.specs.Initialisers.{place_beyond, placed_value, text_filled, placed, all_placed, braced, whole_at};
ghost use Rattle.hs_syntax.specs.StatementViews.{initialisers_from};
ghost use Rattle.hs_syntax.specs.Views.{view, view_initialiser};

use crate::parts::{excess, joined, simple};
use crate::texts::{is_string, lone_string, text_of};
use hs_aggregates::{Aggregate, Begun, Destination, Subobject, fresh, reached, text_kind, whole};
use hs_base::NoMemory;
use hs_syntax::{Expr, Initialiser};
use hs_tokens::Place;
use hs_tree::Part;
use hs_typer::{TypeError, Typer};
use hs_types::{TypeId, Types};
use std::alloc::Global;

/// The parts so far, and the aggregates that have begun.
#[derive(Drop)]
pub(crate) struct Filled {
    pub(crate) parts: Vec<Part>,
    pub(crate) begun: Begun,
}

/// A count of elements as a number. There are no more than 4294967295.
pub(crate) fn number_of(count: usize) -> Result<u32, NoMemory>
    ensures { IfOk result (λ number. number ≡ count) }
{
    match u32::try_from(count) {
        Ok(number) => Ok(number),
        Err(_) => Err(NoMemory),
    }
}

/// One aggregate that has begun.
fn one_begun(alloc: Global, it: Aggregate) -> Result<Begun, NoMemory>
    ensures { IfOk result (λ begun. begun ≡ it ∷ []) }
{
    Begun::new(alloc).with(it)
}

/// Where an item is refused that nothing is left for: at the name of the object if the object is an array of unknown length, which the
/// item would make too large, and otherwise at the item.
fn place_beyond(types: &Types, name: Place, begun: &Begun, at: Place) -> Place
    ensures { result ≡ place_beyond types.now name begun.now at }
{
    if begun.is_growing(types) { name } else { at }
}

/// The parts, with those of an expression in the list. If nothing is left for it, it is refused at `at`.
fn placed_value(
    alloc: Global,
    typer: &mut Typer,
    at: Place,
    done: Vec<Part>,
    e: &Expr,
    to: Option<Destination>,
) -> Result<Filled, TypeError>
    ensures { Steps (λ all. (all.parts.items, all.begun)) typer.new
        (placed_value at done.items (view e.now) (option_map (λ to. (to.it, to.begun)) to) typer.old) result }
{
    match to {
        Some(Destination { it, begun }) => {
            let its = simple(alloc, typer, it, e)?;
            let parts = joined(done, its)?;
            Ok(Filled { parts, begun })
        }
        None => Err(excess(alloc, typer, at, e)),
    }
}

/// The parts, and the characters of an array, all of which have begun.
fn text_filled(
    alloc: Global,
    id: TypeId,
    done: Vec<Part>,
    its: Vec<Part>,
) -> Result<Filled, NoMemory>
    ensures { IfOk result (λ all. (all.parts.items, all.begun) ≡ text_filled id done.items its.items) }
{
    let count = number_of(its.len())?;
    let it = Aggregate {
        type_id: id,
        offset: 0,
        field: None,
        begun: count,
    };
    let begun = one_begun(alloc, it)?;
    let parts = joined(done, its)?;
    Ok(Filled { parts, begun })
}

/// The parts, with those of one initialiser of a list. `name` is the place of the object's name.
#[cycle(placed)]
#[tactic(auto, using(hs_syntax::specs::StatementLaws::initialisers_seen))]
fn placed(
    alloc: Global,
    typer: &mut Typer,
    name: Place,
    done: Filled,
    next: &Initialiser,
) -> Result<Filled, TypeError>
    ensures { Steps (λ all. (all.parts.items, all.begun)) typer.new
        (placed name (done.parts.items, done.begun) (view_initialiser next.now) typer.old) result }
{
    let Filled { parts, begun } = done;
    match next {
        Initialiser::Value(e) => {
            let at = place_beyond(&typer.types, name, &begun, e.position());
            let to = reached(&typer.types, is_string(e), begun)?;
            placed_value(alloc, typer, at, parts, e, to)
        }
        Initialiser::List { at, values, .. } => {
            let to = whole_at(&typer.types, name, *at, begun)?;
            let Destination { it, begun: outer } = to;
            let inner = braced(alloc, typer, name, it, parts, values)?;
            let Filled { parts: all, .. } = inner;
            Ok(Filled {
                parts: all,
                begun: outer,
            })
        }
    }
}

/// The parts, with those of the initialisers of a list, in their order.
#[cycle(placed)]
fn all_placed(
    alloc: Global,
    typer: &mut Typer,
    name: Place,
    done: Filled,
    its: &[Initialiser],
) -> Result<Filled, TypeError>
    ensures { Steps (λ all. (all.parts.items, all.begun)) typer.new
        (all_placed name (done.parts.items, done.begun) (initialisers_from (map view_initialiser its.now)) typer.old) result }
{
    let mut all = done;
    'its: for it in its {
        all = placed(alloc, typer, name, all, it)?;
    }
    Ok(all)
}

/// The parts, with those of a list in braces that is for that object.
#[cycle(placed)]
pub(crate) fn braced(
    alloc: Global,
    typer: &mut Typer,
    name: Place,
    it: Subobject,
    done: Vec<Part>,
    its: &[Initialiser],
) -> Result<Filled, TypeError>
    ensures { Steps (λ all. (all.parts.items, all.begun)) typer.new
        (braced name it done.items (initialisers_from (map view_initialiser its.now)) typer.old) result }
{
    match lone_string(its) {
        Some(e) => {
            if text_kind(&typer.types, it.type_id).is_some() {
                let characters = text_of(alloc, &typer.types, it, e)?;
                Ok(text_filled(alloc, it.type_id, done, characters)?)
            } else {
                listed(alloc, typer, name, it, done, its)
            }
        }
        None => listed(alloc, typer, name, it, done, its),
    }
}

/// The parts, with those of a list in braces that goes through that object.
#[cycle(placed)]
fn listed(
    alloc: Global,
    typer: &mut Typer,
    name: Place,
    it: Subobject,
    done: Vec<Part>,
    its: &[Initialiser],
) -> Result<Filled, TypeError>
    ensures { Steps (λ all. (all.parts.items, all.begun)) typer.new
        (all_placed name (done.items, fresh it ∷ []) (initialisers_from (map view_initialiser its.now)) typer.old) result }
{
    let begun = one_begun(alloc, fresh(it))?;
    all_placed(alloc, typer, name, Filled { parts: done, begun }, its)
}

/// The member or element that a list in braces initialises. If nothing is left, the list is refused: at its `{`, or at the name of an
/// object that it would make too large.
fn whole_at(types: &Types, name: Place, at: Place, begun: Begun) -> Result<Destination, TypeError>
    ensures { Gives (λ to. (to.it, to.begun)) (whole_at (place_beyond types.now name begun at) (whole types.now begun)) result }
{
    let beyond = place_beyond(types, name, &begun, at);
    match whole(types, begun)? {
        Some(to) => Ok(to),
        None => Err(TypeError::Untyped(beyond)),
    }
}
