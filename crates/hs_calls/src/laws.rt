//! Laws of steps. Each is a function without a body, so that a caller can name it.
ghost use Rattle.std.specs.Prelude.{◌≡◌, ℕ, Bool, List, false, slice_get};
ghost use Rattle.hs_calls.specs.Calls.{Here, Wait, point_of};
ghost use Rattle.hs_calls.specs.CallsSince.{IsClosed, HoldsOf, AnyEnd};
ghost use Rattle.hs_calls.specs.Changing.{RanSince, effects_at};
ghost use Rattle.hs_calls.specs.Globals.{sets_global_at};
ghost use Rattle.hs_calls.specs.Stacks.{RanTo, Stack, Goes};
ghost use Rattle.hs_code_run.specs.Codes.{CodeProgram, Point};
ghost use Rattle.hs_code_run.specs.Steps.{stepped};
ghost use Rattle.hs_meaning.specs.Steps.{State, went};
ghost use Rattle.hs_sound_heap.specs.Since.{May, IsWithin};

/// A step does no more to the blocks than its operation may, also where it ends the run: a block that cannot move stays unless something is
/// unlocked, none is purged unless something purges, and so on (`Since` in `hs_sound_heap`).
pub fn a_step_does_no_more_than_its_operation()
    ensures { (may : May) (program : CodeProgram) (point : Point) (s : State)
        → IsWithin (effects_at program (slice_get point.frame.code.ops point.frame.at)) may
        → RanSince may s (stepped program point s) }
{}

/// A call does no more to the blocks than its function may, if what functions may do is closed under their operations and their calls: of each call of a
/// run, what it has done since it began is in the effects of its function, and each step keeps that.
pub fn a_call_does_no_more_than_its_function()
    ensures { (program : CodeProgram) (may : ℕ → May) → IsClosed program may
        → (here : Here) (ws : List Wait) (choices : List Bool) (s : State)
        → Stack program (HoldsOf program may) (AnyEnd program may) here s.machine ws
        → RanTo (AnyEnd program may) (Goes program (HoldsOf program may) (AnyEnd program may)) (stepped program (point_of here ws choices) s) }
{}

/// A step gives no global another binding, unless it is a Set of that global.
pub fn a_step_sets_no_other_global()
    ensures { (g : ℕ) (program : CodeProgram) (point next : Point) (s t : State)
        → sets_global_at g (slice_get point.frame.code.ops point.frame.at) ≡ false
        → stepped program point s ≡ went next t
        → slice_get t.machine.globals g ≡ slice_get s.machine.globals g }
{}
