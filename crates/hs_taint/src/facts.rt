//! The facts after an operation, and what calls and returns are.

ghost use Rattle.std.specs.Prelude.{◌≡◌, ◌<◌, ◌++◌, ◌+◌, ℕ, length};
ghost use Rattle.hs_chains.specs.Answering.{knowledge_by};
ghost use Rattle.hs_effects.specs.Calling.{callee_of, whole_of};
ghost use Rattle.hs_flow.specs.Buffers.{HasRoom};
ghost use Rattle.hs_flow.specs.Given.{Given};
ghost use Rattle.hs_flow.specs.Programs.{IsNumbered, IsTableFor, next_in, slots_at};
ghost use Rattle.hs_code.specs.Following.{successors_of};
ghost use Rattle.hs_code.specs.declared.op.Op.TheVariants as op;
ghost use Rattle.hs_facts.specs.Effects.{WholeCode};
ghost use Rattle.hs_taint.specs.Knowing.{given_at};
ghost use Rattle.hs_taint.specs.Routes.{facts_after, is_return};
ghost use Rattle.hs_taint.specs.Stepping.{listed_fact};

use crate::known::Known;
use hs_code::{Op, Successors};
use hs_flow::{Fact, Facts, Slot, next, over_call};
use hs_tree::Variable;

/// The function that an operation calls.
pub(crate) fn called(op: Op) -> Option<u32>
    ensures { result ≡ callee_of op }
{
    match op {
        Op::Call(function) => Some(function),
        _ => None,
    }
}

/// Whether the operation returns.
pub(crate) fn is_return(op: Op) -> bool
    ensures { result ≡ is_return op }
{
    match op {
        Op::Return => true,
        _ => false,
    }
}

/// The operations that can follow that one, if it has that number.
pub(crate) fn following(op: Op, at: u32) -> Successors
    requires next_is_number { at < 4294967295 }
    ensures { result ≡ successors_of op at }
{
    let next = Some(at + 1);
    match op {
        Op::Jump(target) => Successors {
            next: None,
            jump: Some(target),
            cases: (0, 0),
        },
        Op::Zero(target) | Op::Pick(target) => Successors {
            next,
            jump: Some(target),
            cases: (0, 0),
        },
        Op::Choose(goal) => Successors {
            next: None,
            jump: Some(goal.default),
            cases: (goal.first, goal.end),
        },
        Op::Return => Successors {
            next: None,
            jump: None,
            cases: (0, 0),
        },
        _ => Successors {
            next,
            jump: None,
            cases: (0, 0),
        },
    }
}

/// Puts the facts at the next operation of the same call, those that go over a call too, after those of the buffer.
pub(crate) fn put_facts(known: &Known, op: Op, fact: Fact, into: &mut Facts)
    requires numbered { (f : ℕ) → IsNumbered (whole_of known.now.code.now) f }
    requires table { (f : ℕ) → f < length known.now.code.now.functions.items
        → IsTableFor (whole_of known.now.code.now) known.now.effects.now f }
    requires room { HasRoom (4 + slots_at (whole_of known.now.code.now) known.now.function (given_at known.now)) into.old }
    ensures facts { into.new.facts ≡ into.old.facts
        ++ facts_after (whole_of known.now.code.now) (knowledge_by (whole_of known.now.code.now) known.now.effects.now known.now.must.now)
        known.now.function known.now.at op fact }
    ensures room { into.new.room ≡ into.old.room }
{
    match called(op) {
        Some(function) => {
            if (function as usize) < known.code.functions.len() {
                over_call(known.code, function, known.effects, fact, known, into);
            }
        }
        None => next(known.code, known.function, &op, fact, known, into),
    }
}

/// The fact with which a function returns, if a fact before its return is one of what leaves it. So many values are on the stack.
///
/// A return has this one step, so it needs no buffer.
pub(crate) fn exit_of(places: u32, fact: Fact) -> Option<Fact>
    ensures { (whole : WholeCode) (f : ℕ) (given : Given) → given.places ≡ places
        → next_in whole f given op.Return fact ≡ listed_fact result }
{
    match fact.slot {
        Slot::Nothing | Slot::Class(_) | Slot::Variable(Variable::Global(_)) => Some(fact),
        Slot::Answer | Slot::Variable(Variable::Local(_)) => None,
        Slot::Place(place) => {
            if place == places.saturating_sub(1) {
                Some(Fact {
                    slot: Slot::Answer,
                    status: fact.status,
                })
            } else {
                None
            }
        }
    }
}
