//! One step of a fact.

ghost use Rattle.std.specs.Prelude.{◌≡◌, ◌+◌, ◌++◌};
ghost use Rattle.hs_effects.specs.Calling.{whole_of};
ghost use Rattle.hs_flow.specs.Buffers.{HasRoom};
ghost use Rattle.hs_flow.specs.Programs.{IsNumbered, next_in, slots_at};

use crate::putting::{put_below, stay};
use crate::routine::routine;
use crate::shift::shift;
use crate::stack::{
    bring, dup, get, leave_top, load, set, step, step_to, store, store_pointer, tuck,
};
use crate::{Around, Fact, Facts};
use hs_code::{Access, Code, Op};

/// Puts the facts after an operation of the function `f` that is no call, by what is known around it. They come after those that are in the buffer. A call
/// gives none: its steps are those of `over_call`, `enter` and `leave`. Takes no memory.
///
/// Example: at `Get` of a variable, a fact of the variable stays, and is put of the place on top too.
pub fn next<A: Around>(code: &Code, f: u32, op: &Op, fact: Fact, around: &A, into: &mut Facts)
    requires few { IsNumbered (whole_of code.now) f }
    requires room { HasRoom (4 + slots_at (whole_of code.now) f (A.given around.now)) into.old }
    ensures facts { into.new.facts
        ≡ into.old.facts ++ next_in (whole_of code.now) f (A.given around.now) op.now fact }
    ensures room { into.new.room ≡ into.old.room }
{
    let depth = around.places();
    let top = depth.saturating_sub(1);
    match op {
        Op::Num(_) | Op::Nil | Op::Address(_) | Op::Jump(_) | Op::Turn | Op::Mark | Op::Pick(_) =>
            stay(into, depth, fact),
        Op::Load(Access::Number(_) | Access::Struct(_))
        | Op::Drop
        | Op::Unary(_)
        | Op::IsNil
        | Op::Zero(_)
        | Op::Choose(_) => put_below(into, top, fact.status, fact.slot),
        Op::Binary(_, _) | Op::Compare(_) | Op::Difference(_) => {
            put_below(into, depth.saturating_sub(2), fact.status, fact.slot)
        }
        Op::Get(variable) => get(into, depth, *variable, fact),
        Op::Set(variable) => set(into, around, depth, *variable, fact),
        Op::Load(Access::Pointer(class)) => load(into, around, top, *class, fact),
        Op::Store(Access::Pointer(class)) => store_pointer(into, depth, *class, fact),
        Op::Store(Access::Number(_) | Access::Struct(_)) => store(into, depth, fact),
        Op::Dup => dup(into, depth, fact),
        Op::Tuck => tuck(into, depth, fact),
        Op::Conv(_) => put_below(into, depth, fact.status, fact.slot),
        Op::Bring(place) => bring(into, depth, *place, fact),
        Op::Offset(_) => step_to(into, top, top, fact),
        Op::Step { pointer_first, .. } => step(into, depth, *pointer_first, fact),
        Op::Shift(number) => shift(into, around, code, f, *number, fact),
        Op::Routine(number) => routine(into, around, code, f, *number, fact),
        Op::Return => leave_top(into, depth, fact),
        Op::Call(_) => {}
    }
}
