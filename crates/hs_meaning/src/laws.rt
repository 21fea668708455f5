//! Laws of the runs of programs (`specs/Runs.antt`). Each is a function without a body, so that a caller can name it.
ghost use Rattle.std.specs.Prelude.{◌≡◌, ◌≤◌, ◌+◌, ℕ, suc, List, [], Some, None, slice_get};
ghost use Rattle.hs_heap.specs.Blocks.{Block};
ghost use Rattle.hs_heap.specs.Shift.{Powers, OthersStay, shift};
ghost use Rattle.hs_heap.specs.ShiftLaws.{NameAlike};
ghost use Rattle.hs_heap.specs.declared.cell.Pointer.TheVariants.{Handle};
ghost use Rattle.hs_heap.specs.declared.decision.Decision.{Decision};
ghost use Rattle.hs_meaning.specs.Accesses.{loaded, stored};
ghost use Rattle.hs_meaning.specs.Laws.Schedules.{AreStill, HasNoMovers};
ghost use Rattle.hs_meaning.specs.Machine.{Machine, stopped};
ghost use Rattle.hs_meaning.specs.Runs.{IsMisuse, IsSafe, ran_within, run, still_run};
ghost use Rattle.hs_meaning.specs.Steps.{State, after_decision, next_decision};
ghost use Rattle.hs_meaning.specs.Values.{Access, Value, of_number, of_struct, store_stop};
ghost use Rattle.hs_meaning.specs.declared.input.Input.{Input};
ghost use Rattle.hs_meaning.specs.declared.outcome.Outcome.TheVariants.{TurnsSpent};
ghost use Rattle.hs_meaning.specs.declared.outcome.Stop.TheVariants.{BadLoad};
ghost use Rattle.hs_tree.specs.Trees.{TypedProgram};
ghost use Rattle.hs_types.specs.declared.integer.Integer.{Integer};

/// A run that is not spent stays the same with more turns.
pub fn a_run_stays_with_more_turns()
    ensures { (program : TypedProgram) (input : Input) (schedule : List Decision) (turns more : ℕ)
        → ¬ ((run program input schedule turns).outcome ≡ TurnsSpent)
        → run program input schedule (turns + more) ≡ run program input schedule turns }
{}

/// A run never needs more fuel than one for each turn, and one. Its fuel is no choice: the run is a function of the program, the input, the
/// schedule and the turns.
pub fn turns_are_enough_fuel()
    ensures { (program : TypedProgram) (input : Input) (schedule : List Decision) (turns fuel : ℕ)
        → turns ≤ fuel
        → ran_within (suc fuel) program input schedule turns
        ≡ ran_within (suc turns) program input schedule turns }
{}

/// What a decision of the schedule changes.
pub fn only_what_may_move_is_moved()
    ensures others_stay { (powers : Powers) (s : State)
        → OthersStay powers (next_decision s.schedule) s.machine.blocks
        (after_decision powers s).machine.blocks }
    ensures any_list_is_a_schedule { (powers : Powers) (decision other : Decision) (blocks : List Block)
        → ((place k : ℕ) (block : Block) → k ≡ 1 + place → slice_get blocks place ≡ Some block
        → NameAlike decision other k block)
        → shift powers decision blocks ≡ shift powers other blocks }
    ensures nothing_past_the_end { (powers : Powers) (s : State) → s.schedule ≡ []
        → (after_decision powers s).machine ≡ s.machine }
{}

/// A schedule of decisions that name no block is the empty one.
pub fn still_schedules_are_one()
    ensures { (program : TypedProgram) (input : Input) (schedule : List Decision) (turns : ℕ)
        → AreStill schedule
        → run program input schedule turns ≡ still_run program input turns }
{}

/// An access through a handle that is no load of a pointer stops with BadLoad, whatever the state of the block.
pub fn handles_are_read_as_pointers_alone()
    ensures no_number { (kind : Integer) (block : ℕ) (machine : Machine)
        → loaded (of_number kind) (Handle block) machine ≡ stopped BadLoad machine }
    ensures no_struct { (size block : ℕ) (machine : Machine)
        → loaded (of_struct size) (Handle block) machine ≡ stopped BadLoad machine }
    ensures no_store { (access : Access) (block : ℕ) (value : Value) (machine : Machine)
        → store_stop access value ≡ None
        → stored access (Handle block) value machine ≡ stopped BadLoad machine }
{}

/// A run on the heap that never moves stops at no stale pointer and at no purged handle, whatever the program does.
pub fn still_runs_are_no_misuse()
    ensures { (program : TypedProgram) (input : Input) (turns : ℕ)
        → ¬ (IsMisuse (still_run program input turns).outcome) }
{}

/// A program without a routine that moves or purges is safe: no schedule changes its runs.
pub fn programs_without_movers_are_safe()
    ensures { (program : TypedProgram) → HasNoMovers program → IsSafe program }
{}
