//! A few operations that are always the same.

ghost use Rattle.std.specs.Prelude.{OnOk};
ghost use Rattle.hs_lower_expressions.specs.Emits.{Grows};
ghost use Rattle.hs_lower_expressions.specs.Emitting.{Emitted};
ghost use Rattle.hs_lower_starts.specs.Steps.{pushed, addressed, ended};

use hs_base::Pos;
use hs_code::{Object, Op, Placed};
use hs_lower_expressions::{EmitEnd, Ops};
use hs_tree::Variable;
use hs_types::TypeId;

/// A variable that is to get its first value.
#[derive(Clone, Copy)]
pub(crate) struct Target {
    /// The number of the piece of text.
    pub(crate) piece: u32,
    /// The position of its name.
    pub(crate) at: Pos,
    pub(crate) variable: Variable,
    /// Its type.
    pub(crate) type_id: TypeId,
    /// Whether it is a slot.
    pub(crate) in_slot: bool,
}

/// Puts an operation, with so many values on the stack before it.
#[tactic(auto, unfolding(crate::specs::Steps::pushed))]
pub(crate) fn put(ops: &mut Ops, to: Target, op: Op, places: u32) -> Result<(), EmitEnd>
    ensures emitted { Emitted (pushed to op places ops.old) ops.new result }
    ensures grows { OnOk result (Grows ops.old ops.new) }
{
    ops.push(Placed {
        op,
        at: to.at,
        piece: to.piece,
        places,
    })
}

/// Puts the address of so many bytes on in the variable.
#[tactic(auto, unfolding(crate::specs::Steps::addressed))]
pub(crate) fn put_address(ops: &mut Ops, to: Target, offset: u32) -> Result<(), EmitEnd>
    ensures emitted { Emitted (addressed to offset ops.old) ops.new result }
    ensures grows { OnOk result (Grows ops.old ops.new) }
{
    put(ops, to, Op::Address(Object::Variable(to.variable)), 0)?;
    put(ops, to, Op::Offset(offset), 1)
}

/// Puts what takes a value, and drops what that leaves.
#[tactic(auto, unfolding(crate::specs::Steps::ended))]
pub(crate) fn put_end(ops: &mut Ops, to: Target, op: Op, places: u32) -> Result<(), EmitEnd>
    ensures emitted { Emitted (ended to op places ops.old) ops.new result }
    ensures grows { OnOk result (Grows ops.old ops.new) }
{
    put(ops, to, op, places)?;
    put(ops, to, Op::Drop, 1)
}
