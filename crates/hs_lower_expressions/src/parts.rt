//! The operations that follow operands. Each function puts a few of them at the end of `ops`. `depth` is how many
//! values are on the stack below the operands, or before the first operation if there are no operands.

ghost use Rattle.std.specs.Prelude.{◌≡◌, ◌≤◌, ◌<◌, ◌+◌, length, slice_get, OnOk, IfOk};
ghost use Rattle.hs_code.specs.declared.op.Op.TheVariants.{Zero, Jump};
ghost use Rattle.hs_lowering.specs.Lowering.{placed, takes_decision};
ghost use Rattle.hs_lower_expressions.specs.Contexts.{setting_in};
ghost use Rattle.hs_lower_expressions.specs.Emits.{Grows, most_ops};
ghost use Rattle.hs_lower_expressions.specs.Emitting.{Emitted, pushed, patched, turned, answered_there, both_ended, either_begun, either_ended, nil_tested, fetched_there, changed, slot_changed, memory_changed, slot_stepped, memory_stepped, decided, called, routine_called, number_change, pointer_change};

use crate::{Context, EmitEnd, Ops};
use hs_code::{Access, Binary, Op, Placed, Unary};
use hs_tree::{Arithmetic, Head, Stride, Variable};
use hs_types::Integer;

/// What an assignment makes of the value that an object held and of another operand: the result of an operation, converted if the object
/// is a number.
#[derive(Clone, Copy)]
pub(crate) struct Change {
    pub op: Op,
    pub to: Option<Integer>,
}

/// An operation on numbers of a type, with its result converted to the type of the object.
pub(crate) fn number_change(operator: Arithmetic, kind: Integer, to: Integer) -> Change
    ensures { result ≡ number_change operator kind to }
{
    Change {
        op: Op::Binary(Binary::Arithmetic(operator), kind),
        to: Some(to),
    }
}

/// A pointer that goes on by its other operand.
pub(crate) fn pointer_change(stride: Stride) -> Change
    ensures { result ≡ pointer_change stride }
{
    Change {
        op: Op::Step {
            stride,
            pointer_first: true,
        },
        to: None,
    }
}

/// An operation, with the position of its expression.
fn placed(context: &Context, head: Head, op: Op, depth: u32) -> Placed
    ensures { result ≡ placed context.now.piece head op depth }
{
    Placed {
        op,
        at: head.at.pos,
        piece: context.piece,
        places: depth,
    }
}

/// Puts an operation.
#[tactic(auto, unfolding(crate::specs::Emitting::pushed))]
pub(crate) fn put(
    context: &Context,
    ops: &mut Ops,
    head: Head,
    op: Op,
    depth: u32,
) -> Result<(), EmitEnd>
    ensures emitted { Emitted (pushed context.now.piece head op depth ops.old) ops.new result }
    ensures grows { OnOk result (Grows ops.old ops.new) }
{
    ops.push(placed(context, head, op, depth))
}

/// Begins the branch of a test that holds. Returns the number of the test, whose target is not known yet.
pub(crate) fn branch(
    context: &Context,
    ops: &mut Ops,
    head: Head,
    depth: u32,
) -> Result<u32, EmitEnd>
    requires fits { depth ≤ most_ops }
    ensures emitted { Emitted (pushed context.now.piece head (Zero 0) (depth + 1) ops.old) ops.new result }
    ensures test { IfOk result (λ test. test ≡ length ops.old) }
    ensures grows { OnOk result (Grows ops.old ops.new) }
{
    let test = ops.len();
    put(context, ops, head, Op::Zero(0), depth + 1)?;
    Ok(test)
}

/// Ends that branch with a jump, and gives the test its target. Returns the number of the jump, whose target is not known yet.
#[tactic(auto, unfolding(crate::specs::Emitting::turned))]
pub(crate) fn turn(
    context: &Context,
    ops: &mut Ops,
    head: Head,
    test: u32,
    depth: u32,
) -> Result<u32, EmitEnd>
    requires fits { depth ≤ most_ops }
    requires there { test < length ops.old }
    ensures emitted { Emitted (turned context.now.piece head test depth ops.old) ops.new result }
    ensures jump { IfOk result (λ jump. jump ≡ length ops.old) }
    ensures grows { OnOk result (Grows ops.old ops.new) }
{
    let jump = ops.len();
    put(context, ops, head, Op::Jump(0), depth + 1)?;
    let target = ops.len();
    ops.set(test, placed(context, head, Op::Zero(target), depth + 1));
    Ok(jump)
}

/// Ends the other branch: the jump goes to what follows.
pub(crate) fn meet(context: &Context, ops: &mut Ops, head: Head, jump: u32, depth: u32)
    requires fits { depth ≤ most_ops }
    requires there { jump < length ops.old }
    ensures patched { ops.new ≡ patched context.now.piece head jump (Jump (length ops.old)) (depth + 1) ops.old }
    ensures long { length ops.new ≡ length ops.old }
{
    let target = ops.len();
    ops.set(jump, placed(context, head, Op::Jump(target), depth + 1));
}

/// Makes 1 or 0 of a number: 0 if it is 0.
#[tactic(auto, unfolding(crate::specs::Emitting::answered_there))]
fn answer(context: &Context, ops: &mut Ops, head: Head, depth: u32) -> Result<(), EmitEnd>
    requires fits { depth ≤ most_ops }
    ensures emitted { Emitted (answered_there context.now.piece head depth ops.old) ops.new result }
    ensures grows { OnOk result (Grows ops.old ops.new) }
{
    let test = ops.len();
    put(context, ops, head, Op::Zero(test + 3), depth + 1)?;
    put(context, ops, head, Op::Num(1), depth)?;
    put(context, ops, head, Op::Jump(test + 4), depth + 1)?;
    put(context, ops, head, Op::Num(0), depth)
}

/// Ends `a && b`, after b. If the test of a fails, it goes to the 0 too.
#[tactic(auto, unfolding(crate::specs::Emitting::both_ended))]
pub(crate) fn end_both(
    context: &Context,
    ops: &mut Ops,
    head: Head,
    test: u32,
    depth: u32,
) -> Result<(), EmitEnd>
    requires fits { depth ≤ most_ops }
    requires there { test < length ops.old }
    ensures emitted { Emitted (both_ended context.now.piece head test depth ops.old) ops.new result }
    ensures grows { OnOk result (Grows ops.old ops.new) }
{
    let failed = ops.len() + 3;
    answer(context, ops, head, depth)?;
    ops.set(test, placed(context, head, Op::Zero(failed), depth + 1));
    Ok(())
}

/// Begins what follows a in `a || b`. Returns the number of the jump to its end, whose target is not known yet.
#[tactic(auto, unfolding(crate::specs::Emitting::either_begun))]
pub(crate) fn begin_either(
    context: &Context,
    ops: &mut Ops,
    head: Head,
    depth: u32,
) -> Result<u32, EmitEnd>
    requires fits { depth ≤ most_ops }
    ensures emitted { Emitted (either_begun context.now.piece head depth ops.old) ops.new result }
    ensures jump { IfOk result (λ jump. jump ≡ length ops.old + 2) }
    ensures grows { OnOk result (length ops.old + 3 ≤ length ops.new) }
    ensures few { OnOk result (length ops.new ≤ most_ops) }
{
    let test = ops.len();
    put(context, ops, head, Op::Zero(test + 3), depth + 1)?;
    put(context, ops, head, Op::Num(1), depth)?;
    put(context, ops, head, Op::Jump(0), depth + 1)?;
    Ok(test + 2)
}

/// Ends `a || b`, after b.
#[tactic(auto, unfolding(crate::specs::Emitting::either_ended))]
pub(crate) fn end_either(
    context: &Context,
    ops: &mut Ops,
    head: Head,
    jump: u32,
    depth: u32,
) -> Result<(), EmitEnd>
    requires fits { depth ≤ most_ops }
    requires there { jump < length ops.old }
    ensures emitted { Emitted (either_ended context.now.piece head jump depth ops.old) ops.new result }
    ensures grows { OnOk result (Grows ops.old ops.new) }
{
    answer(context, ops, head, depth)?;
    meet(context, ops, head, jump, depth);
    Ok(())
}

/// Tests whether the pointer on top is the null pointer, or is not.
pub(crate) fn test_nil(
    context: &Context,
    ops: &mut Ops,
    head: Head,
    equal: bool,
    depth: u32,
) -> Result<(), EmitEnd>
    requires fits { depth ≤ most_ops }
    ensures emitted { Emitted (nil_tested context.now.piece head equal depth ops.old) ops.new result }
    ensures grows { OnOk result (Grows ops.old ops.new) }
{
    put(context, ops, head, Op::IsNil, depth + 1)?;
    if !equal {
        put(context, ops, head, Op::Unary(Unary::Not), depth + 1)?;
    }
    Ok(())
}

/// Loads what the pointer on top reaches, and keeps the pointer. It is above so many values.
#[tactic(auto, unfolding(crate::specs::Emitting::fetched_there))]
pub(crate) fn fetch(
    context: &Context,
    ops: &mut Ops,
    head: Head,
    access: Access,
    depth: u32,
) -> Result<(), EmitEnd>
    requires fits { depth ≤ most_ops }
    ensures emitted { Emitted (fetched_there context.now.piece head access depth ops.old) ops.new result }
    ensures grows { OnOk result (length ops.old + 2 ≤ length ops.new) }
    ensures few { OnOk result (length ops.new ≤ most_ops) }
{
    put(context, ops, head, Op::Dup, depth)?;
    put(context, ops, head, Op::Load(access), depth + 1)
}

/// Makes the new value of two operands.
#[tactic(auto, unfolding(crate::specs::Emitting::changed))]
fn make_new(
    context: &Context,
    ops: &mut Ops,
    head: Head,
    made: Change,
    depth: u32,
) -> Result<(), EmitEnd>
    requires fits { depth ≤ most_ops + 2 }
    ensures emitted { Emitted (changed context.now.piece head made depth ops.old) ops.new result }
    ensures grows { OnOk result (Grows ops.old ops.new) }
{
    put(context, ops, head, made.op, depth + 2)?;
    match made.to {
        Some(to) => put(context, ops, head, Op::Conv(to), depth + 1),
        None => Ok(()),
    }
}

/// Makes the new value of two operands, and gives it to a slot.
#[tactic(auto, unfolding(crate::specs::Emitting::slot_changed))]
pub(crate) fn change_slot(
    context: &Context,
    ops: &mut Ops,
    head: Head,
    made: Change,
    its: Variable,
    depth: u32,
) -> Result<(), EmitEnd>
    requires fits { depth ≤ most_ops + 1 }
    ensures emitted { Emitted (slot_changed context.now.piece head made its depth ops.old) ops.new result }
    ensures grows { OnOk result (Grows ops.old ops.new) }
{
    make_new(context, ops, head, made, depth)?;
    put(context, ops, head, Op::Set(its), depth + 1)
}

/// Makes the new value of two operands, and stores it through the pointer below them.
#[tactic(auto, unfolding(crate::specs::Emitting::memory_changed))]
pub(crate) fn change_memory(
    context: &Context,
    ops: &mut Ops,
    head: Head,
    made: Change,
    access: Access,
    depth: u32,
) -> Result<(), EmitEnd>
    requires fits { depth ≤ most_ops + 1 }
    ensures emitted { Emitted (memory_changed context.now.piece head made access depth ops.old) ops.new result }
    ensures grows { OnOk result (Grows ops.old ops.new) }
{
    make_new(context, ops, head, made, depth + 1)?;
    put(context, ops, head, Op::Store(access), depth + 2)
}

/// Adds 1 to a slot or subtracts it, and leaves the value from before.
#[tactic(auto, unfolding(crate::specs::Emitting::slot_stepped))]
pub(crate) fn step_slot(
    context: &Context,
    ops: &mut Ops,
    head: Head,
    made: Change,
    its: Variable,
    depth: u32,
) -> Result<(), EmitEnd>
    requires fits { depth ≤ most_ops }
    ensures emitted { Emitted (slot_stepped context.now.piece head made its depth ops.old) ops.new result }
    ensures grows { OnOk result (Grows ops.old ops.new) }
{
    put(context, ops, head, Op::Get(its), depth)?;
    put(context, ops, head, Op::Dup, depth + 1)?;
    put(context, ops, head, Op::Num(1), depth + 2)?;
    change_slot(context, ops, head, made, its, depth + 1)?;
    put(context, ops, head, Op::Drop, depth + 2)
}

/// Adds 1 to what the pointer on top reaches or subtracts it, and leaves the value from before.
#[tactic(auto, unfolding(crate::specs::Emitting::memory_stepped))]
pub(crate) fn step_memory(
    context: &Context,
    ops: &mut Ops,
    head: Head,
    made: Change,
    access: Access,
    depth: u32,
) -> Result<(), EmitEnd>
    requires fits { depth < most_ops }
    ensures emitted { Emitted (memory_stepped context.now.piece head made access depth ops.old) ops.new result }
    ensures grows { OnOk result (Grows ops.old ops.new) }
{
    fetch(context, ops, head, access, depth + 1)?;
    put(context, ops, head, Op::Tuck, depth + 2)?;
    put(context, ops, head, Op::Num(1), depth + 3)?;
    change_memory(context, ops, head, made, access, depth + 1)?;
    put(context, ops, head, Op::Drop, depth + 2)
}

/// Puts a call of a routine, or of a function that is bound to it, with a decision before it if the routine moves or purges memory.
#[tactic(auto, unfolding(crate::specs::Emitting::decided))]
fn decide(
    context: &Context,
    ops: &mut Ops,
    head: Head,
    routine: u32,
    op: Op,
    depth: u32,
) -> Result<(), EmitEnd>
    ensures emitted { Emitted (decided context.now.piece (takes_decision (slice_get context.now.routines.now routine)) head routine op depth ops.old) ops.new result }
    ensures grows { OnOk result (Grows ops.old ops.new) }
{
    if context.takes_decision(routine) {
        put(context, ops, head, Op::Shift(routine), depth)?;
    }
    put(context, ops, head, op, depth)
}

/// Calls a function whose arguments are on top.
#[tactic(auto, using(crate::proofs::Equations::called_alone, crate::proofs::Equations::called_bound), unfolding(crate::specs::Contexts::setting_in))]
pub(crate) fn call(
    context: &Context,
    ops: &mut Ops,
    head: Head,
    function: u32,
    routine: Option<u32>,
    depth: u32,
) -> Result<(), EmitEnd>
    ensures emitted { Emitted (called (setting_in context.now) context.now.variables.now context.now.piece head function routine depth ops.old) ops.new result }
    ensures grows { OnOk result (Grows ops.old ops.new) }
{
    match routine {
        Some(place) => decide(context, ops, head, place, Op::Call(function), depth),
        None => put(context, ops, head, Op::Call(function), depth),
    }
}

/// Calls a routine whose arguments are on top.
#[tactic(auto, using(crate::proofs::Equations::routine_decided), unfolding(crate::specs::Contexts::setting_in))]
pub(crate) fn call_routine(
    context: &Context,
    ops: &mut Ops,
    head: Head,
    routine: u32,
    depth: u32,
) -> Result<(), EmitEnd>
    ensures emitted { Emitted (routine_called (setting_in context.now) context.now.variables.now context.now.piece head routine depth ops.old) ops.new result }
    ensures grows { OnOk result (Grows ops.old ops.new) }
{
    decide(context, ops, head, routine, Op::Routine(routine), depth)
}
