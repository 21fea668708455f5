//! What of a program does not change while it runs.

ghost use Rattle.std.specs.Prelude.{◌≡◌, length, option_copied, slice_get};
ghost use Rattle.hs_meaning.specs.Objects.{objects_for, variables_of};

use hs_code::FunctionCode;
use hs_state::Setting;
use hs_tree::{Function, Program};

/// A function, with its code.
#[derive(Clone, Copy)]
pub(crate) struct Callee<'c> {
    pub(crate) function: &'c Function,
    pub(crate) code: &'c FunctionCode,
}

/// What of a program does not change while it runs.
#[derive(Clone, Copy)]
pub(crate) struct Loaded<'c> {
    pub(crate) setting: Setting<'c>,
    /// The number of the object of the first string literal.
    pub(crate) literals: u32,
    pub(crate) program: &'c Program,
    /// The code of each of its functions.
    pub(crate) codes: &'c [FunctionCode],
    pub(crate) ghost first: { literals ≡ length (objects_for setting.types.now (variables_of setting.globals.now)) },
}

/// The item of that number, if there is one.
fn entry<T>(its: &[T], place: u32) -> Option<&T>
    ensures { option_copied result ≡ slice_get its.now place }
{
    its.get(place as usize)
}

impl<'c> Loaded<'c> {
    ghost use Rattle.hs_machine.specs.Programs.{IsCallee, program_here};

    /// The function of that number, if there is one.
    #[tactic(auto, using(crate::proofs::Looking::no_function, crate::proofs::Looking::no_code, crate::proofs::Looking::both_there))]
    pub(crate) fn callee(&self, place: u32) -> Option<Callee<'c>>
        ensures { IsCallee (slice_get (program_here self.now).functions place) result }
    {
        let Some(function) = entry(&self.program.functions, place) else {
            return None;
        };
        let Some(code) = entry(self.codes, place) else {
            return None;
        };
        Some(Callee { function, code })
    }
}
