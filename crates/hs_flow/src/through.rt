//! Facts that go into a function and come out of it.

ghost use Rattle.std.specs.Prelude.{◌≡◌, ◌≤◌, length};
ghost use Rattle.hs_effects.specs.Calling.{whole_of};
ghost use Rattle.hs_flow.specs.Calls.{Callee, at_some, back, back_outer, enter_of, entered, leave_of, left};
ghost use Rattle.hs_flow.specs.Programs.{IsTableFor, callee_of, parameters_of};

use crate::calls::{assigns_name, base, parameter};
use crate::over::{fresh_or_loose, held_if};
use crate::{Around, Fact, FactStatus, Slot};
use hs_code::Code;
use hs_effects::EffectTable;
use hs_tree::Variable;

/// A fact of the slot, if there is one.
fn at_some(status: FactStatus, slot: Option<Slot>) -> Option<Fact>
    ensures { result ≡ at_some status slot }
{
    match slot {
        Some(slot) => Some(Fact { slot, status }),
        None => None,
    }
}

/// The slot of the function that gets the value of a slot of its caller.
fn entered<A: Around>(code: &Code, f: u32, around: &A, slot: Slot) -> Option<Slot>
    requires few { length code.now.classes.items ≤ 4294967295 }
    ensures { result ≡ entered (parameters_of (whole_of code.now) f) (A.given around.now) slot }
{
    match slot {
        Slot::Nothing | Slot::Class(_) | Slot::Variable(Variable::Global(_)) => Some(slot),
        Slot::Answer | Slot::Variable(Variable::Local(_)) => None,
        Slot::Place(place) => {
            let base = base(code, f, around);
            if place < base {
                None
            } else {
                parameter(code, f, place - base)
            }
        }
    }
}

/// The fact at the start of the function `f`, if a fact of its caller goes into it. `around` is what is known at the call. Takes no memory.
///
/// Example: a pointer that was loaded from a locked handle, and is an argument, is `Held` in the parameter.
pub fn enter<A: Around>(code: &Code, f: u32, fact: Fact, around: &A) -> Option<Fact>
    requires few { length code.now.classes.items ≤ 4294967295 }
    ensures { result ≡ enter_of (parameters_of (whole_of code.now) f) (A.given around.now) fact }
{
    let status = match fact.status {
        FactStatus::SavedPurgeable => return None,
        FactStatus::Fresh(h) => held_if(around.locked(h)),
        FactStatus::Loose => FactStatus::Outer,
        other => other,
    };
    at_some(status, entered(code, f, around, fact.slot))
}

/// The slot of the caller that gets the value of a slot of the function.
fn left<A: Around>(code: &Code, f: u32, around: &A, slot: Slot) -> Option<Slot>
    ensures { (callee : Callee) → callee.parameters
        ≡ parameters_of (whole_of code.now) f → result ≡ left callee (A.given around.now) slot }
{
    match slot {
        Slot::Nothing | Slot::Class(_) | Slot::Variable(Variable::Global(_)) => Some(slot),
        Slot::Answer => Some(Slot::Place(base(code, f, around))),
        Slot::Variable(Variable::Local(_)) | Slot::Place(_) => None,
    }
}

/// The status of the caller's fact after the call: its name may have been assigned.
fn back<A: Around>(
    code: &Code,
    f: u32,
    effects: &EffectTable,
    around: &A,
    status: FactStatus,
) -> FactStatus
    requires table { IsTableFor (whole_of code.now) effects.now f }
    ensures { result
        ≡ back (callee_of (whole_of code.now) effects.now f) (A.given around.now) status }
{
    match status {
        FactStatus::Fresh(h) => { fresh_or_loose(assigns_name(code, f, effects, around, h), h) }
        other => other,
    }
}

/// The same if the block may have been unlocked.
fn back_outer<A: Around>(
    code: &Code,
    f: u32,
    effects: &EffectTable,
    around: &A,
    status: FactStatus,
) -> FactStatus
    requires table { IsTableFor (whole_of code.now) effects.now f }
    ensures { result
        ≡ back_outer (callee_of (whole_of code.now) effects.now f) (A.given around.now) status }
{
    match status {
        FactStatus::Held => FactStatus::Outer,
        other => back(code, f, effects, around, other),
    }
}

/// The fact after a call of the function `f`, if it was entered with the fact `caller` of its caller and returned with `exit`. `around` is what is known
/// at the call. Takes no memory.
///
/// Example: a pointer of the caller that was `Held` in the function is after the call what it was before, unless the function may assign its name.
pub fn leave<A: Around>(
    code: &Code,
    f: u32,
    effects: &EffectTable,
    caller: Fact,
    exit: Fact,
    around: &A,
) -> Option<Fact>
    requires table { IsTableFor (whole_of code.now) effects.now f }
    ensures { result
        ≡ leave_of (callee_of (whole_of code.now) effects.now f) (A.given around.now) caller exit }
{
    let status = match exit.status {
        FactStatus::SavedPurgeable => return None,
        FactStatus::Fresh(_) => FactStatus::Loose,
        FactStatus::Held => back(code, f, effects, around, caller.status),
        FactStatus::Outer => back_outer(code, f, effects, around, caller.status),
        other => other,
    };
    at_some(status, left(code, f, around, exit.slot))
}
