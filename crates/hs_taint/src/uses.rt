//! Uses of stale pointers and of handles of purged blocks.

ghost use Rattle.std.specs.Prelude.{◌≡◌, ◌&&◌, ◌-◌, ◌==◌, ℕ, length, slice_get};
ghost use Rattle.hs_chains.specs.Hazards.{is_below_top, is_pointer_argument, is_top, is_used, is_used_by, parameters_in, Moved, Purged};
ghost use Rattle.hs_code.specs.declared.op.Op.TheVariants as op;
ghost use Rattle.hs_code.specs.Stacks.{routine_signature};
ghost use Rattle.hs_effects.specs.Calling.{whole_of};
ghost use Rattle.hs_facts.specs.Names.{takes_handle};
ghost use Rattle.hs_flow.specs.Programs.{scope_at};
ghost use Rattle.hs_taint.specs.Using.{kind_of};
ghost use Rattle.hs_tree.specs.Kinds.{is_pointer};

use crate::hazard::HazardKind;
use hs_code::{Access, Code, Op};
use hs_restores::role_at;
use hs_table::Role;
use hs_tree::BoundRoutine;
use hs_types::{Row, TypeId, Types};

/// Whether the operation uses the value of the place, with so many values on the stack before it.
pub(crate) fn is_used(code: &Code, op: Op, depth: u32, kind: HazardKind, place: u32) -> bool
    ensures { (f : ℕ) → result ≡ is_used (scope_at (whole_of code.now) f) op depth (kind_of kind) place }
{
    match kind {
        HazardKind::Moved => is_moved_used(code, op, depth, place),
        HazardKind::Purged => is_purged_used(code, op, depth, place),
    }
}

/// Whether it uses a pointer there.
fn is_moved_used(code: &Code, op: Op, depth: u32, place: u32) -> bool
    ensures { (f : ℕ) → result ≡ is_used (scope_at (whole_of code.now) f) op depth Moved place }
{
    match op {
        Op::Load(_) => is_top(depth, place),
        Op::Store(_) => is_below_top(depth, place),
        Op::Compare(_) | Op::Difference(_) => is_top(depth, place) || is_below_top(depth, place),
        Op::Routine(number) => is_argument(code, number, depth, HazardKind::Moved, place),
        _ => false,
    }
}

/// Whether it uses a handle there.
fn is_purged_used(code: &Code, op: Op, depth: u32, place: u32) -> bool
    ensures { (f : ℕ) → result ≡ is_used (scope_at (whole_of code.now) f) op depth Purged place }
{
    match op {
        Op::Load(Access::Pointer(_)) => is_top(depth, place),
        Op::Routine(number) => is_argument(code, number, depth, HazardKind::Purged, place),
        _ => false,
    }
}

/// Whether the place is the top.
fn is_top(depth: u32, place: u32) -> bool
    ensures { result ≡ is_top depth place }
{
    u64::from(place) + 1 == u64::from(depth)
}

/// Whether it is the place below the top.
fn is_below_top(depth: u32, place: u32) -> bool
    ensures { result ≡ is_below_top depth place }
{
    u64::from(place) + 2 == u64::from(depth)
}

/// Whether a routine uses the argument of that place.
fn is_argument(code: &Code, number: u32, depth: u32, kind: HazardKind, place: u32) -> bool
    ensures { (f : ℕ) → result
        ≡ is_used (scope_at (whole_of code.now) f) (op.Routine number) depth (kind_of kind) place }
{
    let routines = code.program.routines.items();
    let parameters = parameters_of(routines, number);
    let base = (depth as usize).saturating_sub(parameters.len());
    is_used_by(
        role_at(routines, number),
        kind,
        is_pointer_argument(&code.program.types, parameters, base, place as usize),
        place as usize == base,
    )
}

/// The parameters of a routine, if it is there and declared.
fn parameters_of(routines: &[BoundRoutine], number: u32) -> &[TypeId]
    ensures { result.now ≡ parameters_in (routine_signature (slice_get routines.now number)) }
{
    match routines.get(number as usize) {
        Some(it) => match &it.prototype {
            Some(its) => its.parameters.items(),
            None => &[],
        },
        None => &[],
    }
}

/// Whether the place has an argument for a parameter of a pointer type.
fn is_pointer_argument(types: &Types, parameters: &[TypeId], base: usize, place: usize) -> bool
    ensures { result ≡ is_pointer_argument types.now parameters.now base place }
{
    if place < base {
        return false;
    }
    match parameters.get(place - base) {
        Some(id) => is_pointer(types, *id),
        None => false,
    }
}

/// Whether the type is one of pointers.
fn is_pointer(types: &Types, id: TypeId) -> bool
    ensures { result ≡ is_pointer types.now id }
{
    matches!(types.row(id), Some(Row::Pointer(_)))
}

/// Whether a routine of that role uses an argument.
fn is_used_by(role: Option<Role>, kind: HazardKind, is_pointer: bool, is_first: bool) -> bool
    ensures { result ≡ is_used_by role (kind_of kind) is_pointer is_first }
{
    match (role, kind) {
        (Some(Role::BlockMove), HazardKind::Moved) | (Some(Role::Plain), _) => is_pointer,
        (_, HazardKind::Moved) => false,
        (_, HazardKind::Purged) => takes_handle(role) && is_first,
    }
}

/// Whether the first argument of the role is a handle.
fn takes_handle(role: Option<Role>) -> bool
    ensures { result ≡ takes_handle role }
{
    matches!(
        role,
        Some(
            Role::DisposeHandle
                | Role::GetSize
                | Role::SetSize
                | Role::Lock
                | Role::Unlock
                | Role::Purge
                | Role::NoPurge
                | Role::GetState
                | Role::SetState
                | Role::Empty
                | Role::Realloc
        )
    )
}
