//! Calls of routines.

ghost use Rattle.std.specs.Prelude.{◌≡◌, ◌≤◌, ◌+◌, ◌++◌, ◌-◌, length, slice_get};
ghost use Rattle.hs_code.specs.Stacks.{routine_signature};
ghost use Rattle.hs_code.specs.declared.op.Op.TheVariants as op;
ghost use Rattle.hs_effects.specs.Calling.{whole_of};
ghost use Rattle.hs_facts.specs.Names.{gives_handle, makes_by, parameter_count, points_to_pointer, role_in};
ghost use Rattle.hs_flow.specs.Buffers.{HasRoom};
ghost use Rattle.hs_flow.specs.Next.{brought, kept, marks_by, reads_state, sets_state, unlocks_by, unmarks_by};
ghost use Rattle.hs_flow.specs.Programs.{IsNumbered, next_in, restorable_slots, scope_at, slots_at};
ghost use Rattle.hs_tree.specs.Kinds.{is_pointer};

use crate::naming::{apart, share_name};
use crate::putting::put_if;
use crate::restoring::put_back;
use crate::slots::{is_below, is_next_place, is_nothing, is_place};
use crate::{Around, Fact, FactStatus, Facts, Slot};
use hs_code::Code;
use hs_table::Role;
use hs_tree::BoundRoutine;
use hs_types::{Row, TypeId, Types};

/// How many values the routine of that number takes, if it is there and declared.
pub(crate) fn parameter_count(routines: &[BoundRoutine], number: u32) -> usize
    ensures { result ≡ parameter_count (routine_signature (slice_get routines.now number)) }
{
    match routines.get(number as usize) {
        Some(it) => match &it.prototype {
            Some(its) => its.parameters.items().len(),
            None => 0,
        },
        None => 0,
    }
}

/// The role of the routine of that number, if it is there.
pub(crate) fn role_at(routines: &[BoundRoutine], number: u32) -> Option<Role>
    ensures { result ≡ role_in (slice_get routines.now number) }
{
    match routines.get(number as usize) {
        Some(it) => Some(it.routine.role),
        None => None,
    }
}

/// Whether the type is one of pointers.
pub(crate) fn is_pointer(types: &Types, id: TypeId) -> bool
    ensures { result ≡ is_pointer types.now id }
{
    matches!(types.row(id), Some(Row::Pointer(_)))
}

/// Whether the type is one of pointers to pointers.
fn points_to_pointer(types: &Types, id: TypeId) -> bool
    ensures { result ≡ points_to_pointer types.now id }
{
    match types.row(id) {
        Some(Row::Pointer(of)) => is_pointer(types, of),
        _ => false,
    }
}

/// Whether the routine of that number is declared with a result that points to a pointer.
fn gives_handle(types: &Types, routines: &[BoundRoutine], number: u32) -> bool
    ensures { result ≡ gives_handle types.now (routine_signature (slice_get routines.now number)) }
{
    match routines.get(number as usize) {
        Some(it) => match &it.prototype {
            Some(its) => points_to_pointer(types, its.result),
            None => false,
        },
        None => false,
    }
}

/// Whether the routine of that number, which has that role, may make a handle.
pub(crate) fn makes_handle(
    types: &Types,
    routines: &[BoundRoutine],
    number: u32,
    role: Option<Role>,
) -> bool
    ensures { result
        ≡ makes_by role
        (gives_handle types.now (routine_signature (slice_get routines.now number))) }
{
    match role {
        Some(Role::NewHandle) => true,
        Some(Role::Plain) => gives_handle(types, routines, number),
        _ => false,
    }
}

/// Whether a routine of that role may unlock a block.
fn unlocks(restores: bool, role: Option<Role>) -> bool
    ensures { result ≡ unlocks_by restores role }
{
    match role {
        Some(Role::Unlock | Role::Realloc) => true,
        Some(Role::SetState) => !restores,
        _ => false,
    }
}

/// Whether a routine of that role may mark a block as purgeable.
fn marks(restores: bool, role: Option<Role>) -> bool
    ensures { result ≡ marks_by restores role }
{
    match role {
        Some(Role::Purge) => true,
        Some(Role::SetState) => !restores,
        _ => false,
    }
}

/// Whether a routine of that role makes a block unpurgeable.
fn unmarks(role: Option<Role>) -> bool
    ensures { result ≡ unmarks_by role }
{
    matches!(role, Some(Role::NoPurge))
}

/// Whether a routine of that role reads a state byte.
pub(crate) fn reads_state(role: Option<Role>) -> bool
    ensures { result ≡ reads_state role }
{
    matches!(role, Some(Role::GetState))
}

/// Whether a routine of that role puts one.
pub(crate) fn sets_state(role: Option<Role>) -> bool
    ensures { result ≡ sets_state role }
{
    matches!(role, Some(Role::SetState))
}

/// What becomes of a slot that is no argument.
pub(crate) fn keep<A: Around>(
    into: &mut Facts,
    around: &A,
    role: Option<Role>,
    argument: Slot,
    fact: Fact,
)
    requires room { HasRoom 2 into.old }
    ensures facts { into.new.facts
        ≡ into.old.facts ++ kept (A.given around.now) role argument fact.status fact.slot }
    ensures room { into.new.room ≡ into.old.room }
    ensures few { length into.new.facts ≤ length into.old.facts + 2 }
{
    match fact.status {
        FactStatus::Held => {
            let status = if unlocks(around.restores(), role) {
                FactStatus::Outer
            } else {
                FactStatus::Held
            };
            into.put(status, fact.slot)
        }
        FactStatus::IsHandle => {
            into.put(fact.status, fact.slot);
            let marked = marks(around.restores(), role) && !apart(around, fact.slot, argument);
            put_if(into, marked, FactStatus::Purgeable, fact.slot)
        }
        FactStatus::Purgeable => {
            let ends = unmarks(role) && share_name(around, fact.slot, argument);
            put_if(into, !ends, fact.status, fact.slot)
        }
        FactStatus::Reached
        | FactStatus::Hollow
        | FactStatus::SavedPurgeable
        | FactStatus::Fresh(_)
        | FactStatus::Outer
        | FactStatus::Loose
        | FactStatus::Stale => into.put(fact.status, fact.slot),
    }
}

/// What comes with a routine, by the status of the fact: a handle is made, or a state byte is read or put back.
fn bring<A: Around>(
    into: &mut Facts,
    around: &A,
    code: &Code,
    f: u32,
    number: u32,
    base: u32,
    fact: Fact,
)
    requires few { IsNumbered (whole_of code.now) f }
    requires room { HasRoom (1 + restorable_slots (whole_of code.now) f base) into.old }
    ensures facts { into.new.facts ≡ into.old.facts
        ++ brought (scope_at (whole_of code.now) f) (length code.now.classes.items)
        (A.given around.now) number base fact.status fact.slot }
    ensures room { into.new.room ≡ into.old.room }
{
    let routines = code.program.routines.items();
    let role = role_at(routines, number);
    match fact.status {
        FactStatus::Reached => {
            let made = makes_handle(&code.program.types, routines, number, role)
                && is_nothing(fact.slot);
            put_if(into, made, FactStatus::IsHandle, Slot::Place(base))
        }
        FactStatus::Purgeable => {
            let read = reads_state(role) && is_place(base, fact.slot);
            put_if(into, read, FactStatus::SavedPurgeable, Slot::Place(base))
        }
        FactStatus::SavedPurgeable => {
            if sets_state(role) && around.restores() && is_next_place(base, fact.slot) {
                put_back(into, around, code, f, base);
            }
        }
        FactStatus::IsHandle
        | FactStatus::Hollow
        | FactStatus::Fresh(_)
        | FactStatus::Held
        | FactStatus::Outer
        | FactStatus::Loose
        | FactStatus::Stale => {}
    }
}

/// A routine is called: it takes its arguments, and leaves its result where the first was.
pub(crate) fn routine<A: Around>(
    into: &mut Facts,
    around: &A,
    code: &Code,
    f: u32,
    number: u32,
    fact: Fact,
)
    requires few { IsNumbered (whole_of code.now) f }
    requires room { HasRoom (4 + slots_at (whole_of code.now) f (A.given around.now)) into.old }
    ensures facts { into.new.facts
        ≡ into.old.facts
        ++ next_in (whole_of code.now) f (A.given around.now) (op.Routine number) fact }
    ensures room { into.new.room ≡ into.old.room }
{
    let routines = code.program.routines.items();
    let base = base_of(around.places(), parameter_count(routines, number));
    if is_below(base, fact.slot) {
        keep(
            into,
            around,
            role_at(routines, number),
            Slot::Place(base),
            fact,
        );
    }
    bring(into, around, code, f, number, base, fact);
}

/// The place below the top by so many.
pub(crate) fn base_of(places: u32, taken: usize) -> u32
    ensures { result ≡ places - taken }
{
    (places as usize).saturating_sub(taken) as u32
}
