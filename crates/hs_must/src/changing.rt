//! The changes of a function.

ghost use Rattle.std.specs.Prelude.{◌≡◌, ◌≤◌, IfOk, length, slice_get};
ghost use Rattle.hs_code.specs.Stacks.{routine_signature};
ghost use Rattle.hs_effects.specs.Effecting.{number_of};
ghost use Rattle.hs_fact_rows.specs.Cells.{index_of};
ghost use Rattle.hs_facts.specs.Effects.{disposes, unlocks};
ghost use Rattle.hs_facts.specs.Names.{gives_handle, role_in};
ghost use Rattle.hs_lock_rows.specs.Changing.{bring_change, plain_change, role_change, set_change};
ghost use Rattle.hs_lock_rows.specs.declared.change.Change.TheVariants as change;
ghost use Rattle.hs_must.specs.Changing.{change_by, changes_by, may};
ghost use Rattle.hs_restores.specs.Laws.Numbering.{is_in};
ghost use Rattle.hs_restores.specs.Stepping.{scope_in};
ghost use Rattle.hs_tree.specs.Trees.{TypedFunction};

use bitflags::Flags;
use hs_base::NoMemory;
use hs_code::{Effects, Op, Placed};
use hs_effects::EffectTable;
use hs_lock_rows::Change;
use hs_restores::{Numbers, points_to_pointer, role_at, taken};
use hs_table::Role;
use hs_tree::{BoundRoutine, Program, Variable};
use hs_types::Types;
use std::alloc::Global;

/// What the changes of a function depend on: its program, its lists, and what so many functions may do.
#[derive(Clone, Copy)]
pub(crate) struct Maker<'a> {
    pub program: &'a Program,
    pub names: &'a Numbers,
    pub slots: &'a Numbers,
    pub effects: &'a EffectTable,
    pub functions: usize,
}

/// The changes of the operations of a function.
pub(crate) fn changes_by(
    alloc: Global,
    maker: Maker,
    ops: &[Placed],
) -> Result<Vec<Change>, NoMemory>
    requires functions { maker.functions ≤ maker.effects.now.effects.count }
    ensures { IfOk result (λ its. (function : TypedFunction) → its.items
        ≡ changes_by (scope_in maker.entry.program.now function) maker.entry.names.now maker.entry.slots.now
        (may maker.entry.effects.now maker.entry.functions unlocks) (may maker.entry.effects.now maker.entry.functions disposes) ops.now) }
{
    let mut changes = Vec::new(alloc);
    'ops: for its in ops {
        changes.push(change_by(maker, its.op, its.places as usize))?;
    }
    Ok(changes)
}

/// The change of an operation with so many values on the stack before it.
fn change_by(maker: Maker, op: Op, depth: usize) -> Change
    requires functions { maker.functions ≤ maker.effects.now.effects.count }
    ensures { (function : TypedFunction) → result
        ≡ change_by (scope_in maker.entry.program.now function) maker.entry.names.now maker.entry.slots.now
        (may maker.entry.effects.now maker.entry.functions unlocks) (may maker.entry.effects.now maker.entry.functions disposes) op depth }
{
    let base = depth.saturating_sub(taken(maker.program, op));
    match op {
        Op::Get(variable) => Change::Get {
            to: depth,
            slot: maker.slots.find(variable),
        },
        Op::Set(variable) => set_change(maker, variable, depth),
        Op::Load(_) => Change::Use {
            depth,
            base: depth.saturating_sub(1),
        },
        Op::Dup => Change::Dup { depth },
        Op::Tuck => Change::Tuck { depth },
        Op::Conv(_) => Change::Conv { depth },
        Op::Bring(place) => bring_change(depth, place as usize),
        Op::Routine(place) => routine_change(maker.program, place, depth, base),
        Op::Call(function) => call_change(maker, base, function),
        _ => Change::Pop { base },
    }
}

/// Whether the variable is one of the list.
fn is_in(numbers: &Numbers, variable: Variable) -> bool
    ensures { result ≡ is_in numbers.now variable }
{
    numbers.find(variable) < numbers.items().len()
}

/// The change of giving the top to a variable.
fn set_change(maker: Maker, variable: Variable, depth: usize) -> Change
    ensures { result ≡ set_change (is_in maker.entry.names.now variable) depth
        (index_of maker.entry.names.now variable) (index_of maker.entry.slots.now variable) }
{
    let name = maker.names.find(variable);
    let slot = maker.slots.find(variable);
    if is_in(maker.names, variable) {
        Change::SetName { depth, name, slot }
    } else {
        Change::SetSlot { depth, slot }
    }
}

/// The change of moving a value to the top: the place is counted from 1 there.
fn bring_change(depth: usize, place: usize) -> Change
    ensures { result ≡ bring_change depth place }
{
    if place == 0 {
        Change::Pop { base: depth }
    } else {
        let base = depth.saturating_sub(place);
        Change::Bring { depth, base }
    }
}

/// The change of the routine of that number, whose arguments begin at that place.
fn routine_change(program: &Program, place: u32, depth: usize, base: usize) -> Change
    ensures { result ≡ role_change (role_in (slice_get program.now.routines place))
        (gives_handle program.now.types (routine_signature (slice_get program.now.routines place))) depth base }
{
    let routines = program.routines.items();
    let by_type = gives_handle(&program.types, routines, place);
    role_change(role_at(routines, place), by_type, depth, base)
}

/// Whether what the routine of that number gives points to a pointer.
fn gives_handle(types: &Types, routines: &[BoundRoutine], place: u32) -> bool
    ensures { result ≡ gives_handle types.now (routine_signature (slice_get routines.now place)) }
{
    match routines.get(place as usize) {
        Some(it) => match &it.prototype {
            Some(its) => points_to_pointer(types, its.result),
            None => false,
        },
        None => false,
    }
}

/// The change of a routine of that role.
fn role_change(role: Option<Role>, by_type: bool, depth: usize, base: usize) -> Change
    ensures { result ≡ role_change role by_type depth base }
{
    match role {
        Some(Role::NewHandle) => Change::Make { base },
        Some(Role::DisposeHandle) => Change::Dispose { depth, base },
        Some(Role::GetSize)
        | Some(Role::SetSize)
        | Some(Role::Purge)
        | Some(Role::NoPurge)
        | Some(Role::Empty) => Change::Use { depth, base },
        Some(Role::Lock) => Change::Lock { depth, base },
        Some(Role::Unlock) | Some(Role::Realloc) => Change::Unlock { depth, base },
        Some(Role::GetState) => Change::ReadState { depth, base },
        Some(Role::SetState) => Change::SetState { depth, base },
        Some(Role::Plain) => plain_change(by_type, base),
        Some(Role::NewPtr)
        | Some(Role::DisposePtr)
        | Some(Role::BlockMove)
        | Some(Role::Getchar)
        | Some(Role::Putchar)
        | None => Change::Pop { base },
    }
}

/// The change of a plain routine.
fn plain_change(by_type: bool, base: usize) -> Change
    ensures { result ≡ plain_change by_type base }
{
    if by_type {
        Change::Make { base }
    } else {
        Change::Pop { base }
    }
}

/// The change of a call of a function.
fn call_change(maker: Maker, base: usize, function: u32) -> Change
    requires functions { maker.functions ≤ maker.effects.now.effects.count }
    ensures { result ≡ change.Call base function (may maker.entry.effects.now maker.entry.functions unlocks function)
        (may maker.entry.effects.now maker.entry.functions disposes function) }
{
    let unlocks = may_unlock(maker.effects, maker.functions, function);
    let disposes = may_dispose(maker.effects, maker.functions, function);
    Change::Call {
        base,
        function,
        unlocks,
        disposes,
    }
}

/// Whether the function of that number unlocks, if there are so many.
fn may_unlock(effects: &EffectTable, functions: usize, f: u32) -> bool
    requires functions { functions ≤ effects.now.effects.count }
    ensures { result ≡ may effects.now functions unlocks f }
{
    (f as usize) < functions && effects.of(f).contains(Effects::UNLOCKS)
}

/// Whether the function of that number disposes of blocks, if there are so many.
fn may_dispose(effects: &EffectTable, functions: usize, f: u32) -> bool
    requires functions { functions ≤ effects.now.effects.count }
    ensures { result ≡ may effects.now functions disposes f }
{
    (f as usize) < functions && effects.of(f).contains(Effects::DISPOSES)
}
