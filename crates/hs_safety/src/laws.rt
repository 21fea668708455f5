//! The law of safe programs: a function that does nothing, so that a caller can name it.

ghost use Rattle.hs_code.specs.Codes.{view_program};
ghost use Rattle.hs_meaning.specs.Runs.{IsSafe};
ghost use Rattle.hs_safety.specs.Safety.{NeverMisused};

use hs_lowering::code_of_programs_is_exact;
use hs_tree::Program;

/// A program is safe if no step of a run of its code tests an operand that is stale or purged, whatever the input, the schedule and the number of turns
/// are: no schedule changes what it puts out or how it ends, and it never stops because something is stale or purged. `specs/Safety.antt` shows how to
/// know this of all steps: from a fact that holds where a run begins and that each step keeps (`Guards`).
pub fn a_program_that_never_misuses_is_safe(program: &Program)
    ensures { NeverMisused (view_program program.now) → IsSafe (view_program program.now) }
{
    code_of_programs_is_exact(program);
}
