//! How many values operations take.

ghost use Rattle.std.specs.Prelude.{◌≡◌, length, slice_get};
ghost use Rattle.hs_code.specs.Stacks.{routine_signature};
ghost use Rattle.hs_facts.specs.Names.{parameter_count, role_in, taken};
ghost use Rattle.hs_restores.specs.Parameters.{count_in};
ghost use Rattle.hs_restores.specs.Stepping.{scope_in};
ghost use Rattle.hs_tree.specs.Trees.{TypedFunction};

use hs_code::Op;
use hs_table::Role;
use hs_tree::{BoundRoutine, Function, Program};

/// Returns how many values an operation takes.
///
/// Example: 2 for `Op::Tuck`.
pub fn taken(program: &Program, op: Op) -> usize
    ensures { (function : TypedFunction) → result ≡ taken (scope_in program.now function) op }
{
    match op {
        Op::Num(_)
        | Op::Nil
        | Op::Address(_)
        | Op::Get(_)
        | Op::Set(_)
        | Op::Dup
        | Op::Jump(_)
        | Op::Shift(_)
        | Op::Turn
        | Op::Mark
        | Op::Pick(_) => 0,
        Op::Load(_)
        | Op::Drop
        | Op::Conv(_)
        | Op::Unary(_)
        | Op::IsNil
        | Op::Offset(_)
        | Op::Zero(_)
        | Op::Choose(_)
        | Op::Return => 1,
        Op::Store(_)
        | Op::Tuck
        | Op::Binary(_, _)
        | Op::Compare(_)
        | Op::Difference(_)
        | Op::Step { .. } => 2,
        Op::Routine(place) => taken_by_routine(program.routines.items(), place),
        Op::Call(place) => taken_by_function(&program.functions, place),
        Op::Bring(place) => place as usize,
    }
}

/// The parameters of the routine of that number, if it is there and declared.
fn taken_by_routine(routines: &[BoundRoutine], place: u32) -> usize
    ensures { result ≡ parameter_count (routine_signature (slice_get routines.now place)) }
{
    match routines.get(place as usize) {
        Some(it) => match &it.prototype {
            Some(its) => its.parameters.items().len(),
            None => 0,
        },
        None => 0,
    }
}

/// The parameters of the function of that number, if it is there.
fn taken_by_function(functions: &[Function], place: u32) -> usize
    ensures { result ≡ count_in (slice_get functions.now place) }
{
    match functions.get(place as usize) {
        Some(it) => (it.parameters as usize).min(it.variables.items().len()),
        None => 0,
    }
}

/// Returns the role of the routine of that number, if it is there.
///
/// Example: `None` for a number past the routines.
pub fn role_at(routines: &[BoundRoutine], place: u32) -> Option<Role>
    ensures { result ≡ role_in (slice_get routines.now place) }
{
    match routines.get(place as usize) {
        Some(it) => Some(it.routine.role),
        None => None,
    }
}
