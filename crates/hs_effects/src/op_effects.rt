//! The effects of single operations.

ghost use Rattle.std.specs.Prelude.{◌≡◌};
ghost use Rattle.hs_effects.specs.Effecting.{effects_of_op, effects_of_role, effects_of_shift, no_effects};

use hs_code::Op;
use hs_table::Role;
use hs_tree::BoundRoutine;

/// The effects of an operation, as those of a function are (`hs_code::Effects`).
#[derive(Clone, Copy)]
pub(crate) struct OpEffects {
    pub moves: bool,
    pub purges: bool,
    pub unlocks: bool,
    pub marks: bool,
    pub bits: bool,
    pub disposes: bool,
}

/// The effects of an operation, by whether it is a restore.
pub(crate) fn effects_of_op(routines: &[BoundRoutine], op: Op, restores: bool) -> OpEffects
    ensures { result ≡ effects_of_op routines.now restores op }
{
    match op {
        Op::Shift(place) => match routines.get(place as usize) {
            Some(it) => effects_of_shift(it.routine.moves, it.routine.purges),
            None => no_effects(),
        },
        Op::Routine(place) => match routines.get(place as usize) {
            Some(it) => effects_of_role(it.routine.role, restores),
            None => no_effects(),
        },
        _ => no_effects(),
    }
}

/// None.
fn no_effects() -> OpEffects
    ensures { result ≡ no_effects }
{
    OpEffects {
        moves: false,
        purges: false,
        unlocks: false,
        marks: false,
        bits: false,
        disposes: false,
    }
}

/// The effects of a decision for a routine.
fn effects_of_shift(moves: bool, purges: bool) -> OpEffects
    ensures { result ≡ effects_of_shift moves purges }
{
    OpEffects {
        moves: moves || purges,
        purges,
        ..no_effects()
    }
}

/// The effects of a routine of that role, by whether it is a restore.
fn effects_of_role(role: Role, restores: bool) -> OpEffects
    ensures { result ≡ effects_of_role restores role }
{
    let none = no_effects();
    match role {
        Role::Unlock | Role::Realloc => OpEffects {
            unlocks: true,
            bits: true,
            ..none
        },
        Role::SetState => OpEffects {
            unlocks: !restores,
            marks: !restores,
            bits: true,
            ..none
        },
        Role::Purge => OpEffects {
            marks: true,
            bits: true,
            ..none
        },
        Role::Lock | Role::NoPurge | Role::GetState | Role::Empty => OpEffects {
            bits: true,
            ..none
        },
        Role::DisposeHandle => OpEffects {
            bits: true,
            disposes: true,
            ..none
        },
        Role::NewHandle
        | Role::GetSize
        | Role::SetSize
        | Role::NewPtr
        | Role::DisposePtr
        | Role::BlockMove
        | Role::Getchar
        | Role::Putchar
        | Role::Plain => none,
    }
}
