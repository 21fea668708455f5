//! The routines of the table, each with its declaration at its first call.

ghost use Rattle.std.specs.Prelude.{◌≡◌, [], slice_get, length, IfOk};
ghost use Rattle.hs_ends.specs.Ends.{no_types, with_call, first_types, listed_in, prototype_of_row, prototype_of, bound_routine, bound_routines};

use hs_base::NoMemory;
use hs_table::Routine;
use hs_tree::{BoundRoutine, Prototype, TypeIds};
use hs_typer::{RoutineCall, copied, next_place};
use hs_types::{ListId, Parameters, Row, TypeId, Types};
use std::alloc::Global;

/// No routine is called yet.
fn no_types(alloc: Global, its: &[Routine]) -> Result<Vec<Option<TypeId>>, NoMemory>
    ensures { IfOk result (λ all. all.items ≡ no_types its.now) }
{
    let mut all = Vec::new(alloc);
    let mut rest = its;
    'rest: while let Some((_, others)) = rest.split_first() {
        all.push(None)?;
        rest = others;
    }
    Ok(all)
}

/// The types of the first calls, with one call more.
fn with_call(done: Vec<Option<TypeId>>, it: RoutineCall) -> Vec<Option<TypeId>>
    ensures { result.items ≡ with_call done.items it (slice_get done.items it.routine) }
{
    let mut all = done;
    let place = it.routine as usize;
    if place < all.len() && all[place].is_none() {
        all[place] = Some(it.type_id);
    }
    all
}

/// Of each routine, the type of its declaration at its first call, if it is called.
///
/// Example: no type for a routine that is never called.
pub fn first_types(
    alloc: Global,
    routines: &[Routine],
    its: &[RoutineCall],
) -> Result<Vec<Option<TypeId>>, NoMemory>
    ensures { IfOk result (λ all. all.items ≡ first_types (no_types routines.now) its.now) }
{
    let mut all = no_types(alloc, routines)?;
    let mut rest = its;
    'rest: while let Some((it, others)) = rest.split_first() {
        all = with_call(all, *it);
        rest = others;
    }
    Ok(all)
}

/// The types of a list of parameters. There are no more than the table has lists, so there is a turn for each of those.
#[tactic(auto, using(crate::proofs::Turns::turn_ends))]
fn listed(alloc: Global, types: &Types, list: ListId) -> Result<TypeIds, NoMemory>
    ensures { IfOk result (λ ids. ids ≡ listed_in (length types.now.lists) types.now [] list) }
{
    let mut done = Vec::new(alloc);
    let mut left = list;
    let mut turn = 0u32;
    'turn: while types.parameters(ListId { number: turn }).is_some() {
        let Some(Parameters::More { first, others }) = types.parameters(left) else {
            return Ok(TypeIds::from_vec(done));
        };
        done.push(first)?;
        left = others;
        turn = next_place(turn)?;
    }
    Ok(TypeIds::from_vec(done))
}

/// The result and the parameters of a function of that type.
fn prototype_of_row(
    alloc: Global,
    types: &Types,
    row: Option<Row>,
) -> Result<Option<Prototype>, NoMemory>
    ensures { IfOk result (λ it. it ≡ prototype_of_row types.now row) }
{
    match row {
        Some(
            Row::Function {
                result: given,
                parameters: list,
            },
        ) => {
            let parameters = listed(alloc, types, list)?;
            Ok(Some(Prototype {
                result: given,
                parameters,
            }))
        }
        Some(
            Row::Void
            | Row::Integer(_)
            | Row::Pointer(_)
            | Row::Enumeration(_)
            | Row::Struct(_)
            | Row::Array { .. }
            | Row::OpenArray(_),
        )
        | None => Ok(None),
    }
}

/// How a routine is declared, if it is called.
fn prototype_of(
    alloc: Global,
    types: &Types,
    id: Option<TypeId>,
) -> Result<Option<Prototype>, NoMemory>
    ensures { IfOk result (λ it. it ≡ prototype_of types.now id) }
{
    match id {
        Some(id) => prototype_of_row(alloc, types, types.row(id)),
        None => Ok(None),
    }
}

/// A routine, and its declaration.
fn bound_routine(
    alloc: Global,
    types: &Types,
    it: &Routine,
    id: Option<TypeId>,
) -> Result<BoundRoutine, NoMemory>
    ensures { IfOk result (λ bound. bound ≡ bound_routine types.now it.now id) }
{
    let routine = Routine {
        name: copied(alloc, it.name.items())?,
        role: it.role,
        moves: it.moves,
        purges: it.purges,
        fills: it.fills,
        size: it.size,
    };
    let prototype = prototype_of(alloc, types, id)?;
    Ok(BoundRoutine { routine, prototype })
}

/// The routines, each with its declaration.
///
/// Example: `NewHandle` with the declaration that its first call was bound to.
pub fn bound_routines(
    alloc: Global,
    types: &Types,
    its: &[Routine],
    ids: &[Option<TypeId>],
) -> Result<Vec<BoundRoutine>, NoMemory>
    ensures { IfOk result (λ all. all.items ≡ bound_routines types.now [] its.now ids.now) }
{
    let mut done = Vec::new(alloc);
    let mut left = ids;
    let mut rest = its;
    'rest: while let Some((it, others)) = rest.split_first() {
        let Some((id, more)) = left.split_first() else {
            return Ok(done);
        };
        done.push(bound_routine(alloc, types, it, *id)?)?;
        left = more;
        rest = others;
    }
    Ok(done)
}
