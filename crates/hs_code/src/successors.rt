//! Which operations can follow one.

ghost use Rattle.std.specs.Prelude.{◌≡◌, ◌<◌, ◌↔◌, ℕ, length};
ghost use Rattle.hs_code.specs.Following.{Follows, IsAmong, successors_of};

use crate::{FunctionCode, Op};

/// The operations that can follow one, by their numbers.
#[derive(Clone, Copy, Debug, PartialEq, Eq)]
pub struct Successors {
    /// The next one.
    pub next: Option<u32>,
    /// The one to which it jumps, or the default of a switch.
    pub jump: Option<u32>,
    /// The cases of a switch, by the place of the first one among those of the function and the place after the last. Otherwise both are 0.
    pub cases: (u32, u32),
}

/// The operations that can follow the one of that number.
///
/// Example: the next operation and 7 for `Zero(7)`, and none for `Return`.
pub fn succ(code: &FunctionCode, at: u32) -> Successors
    requires in_range { at < length code.now.ops }
    ensures exact { (next : ℕ) → Follows code.now at next ↔ IsAmong result code.now.cases next }
{
    let ops = code.ops.items();
    following(ops[at as usize].op, at)
}

/// The operations that can follow that one, if it has that number.
fn following(op: Op, at: u32) -> Successors
    requires next_is_number { at < 4294967295 }
    ensures { result ≡ successors_of op at }
{
    let next = Some(at + 1);
    let none = Successors {
        next: None,
        jump: None,
        cases: (0, 0),
    };
    match op {
        Op::Jump(target) => Successors {
            jump: Some(target),
            ..none
        },
        Op::Zero(target) | Op::Pick(target) => Successors {
            next,
            jump: Some(target),
            ..none
        },
        Op::Choose(goal) => Successors {
            jump: Some(goal.default),
            cases: (goal.first, goal.end),
            ..none
        },
        Op::Return => none,
        Op::Num(_)
        | Op::Nil
        | Op::Address(_)
        | Op::Get(_)
        | Op::Set(_)
        | Op::Load(_)
        | Op::Store(_)
        | Op::Drop
        | Op::Dup
        | Op::Tuck
        | Op::Conv(_)
        | Op::Unary(_)
        | Op::Binary(_, _)
        | Op::IsNil
        | Op::Compare(_)
        | Op::Difference(_)
        | Op::Offset(_)
        | Op::Step { .. }
        | Op::Shift(_)
        | Op::Routine(_)
        | Op::Call(_)
        | Op::Turn
        | Op::Mark
        | Op::Bring(_) => Successors { next, ..none },
    }
}
