//! The code of expressions.

ghost use Rattle.std.specs.Prelude.{◌≡◌, ◌≤◌, ◌+◌, length, map, OnOk, IfOk};
ghost use Rattle.hs_lower_expressions.specs.Contexts.{value_code, place_code, value_steps, place_steps, values_steps, drops_steps};
ghost use Rattle.hs_lower_expressions.specs.Emits.{Emits, Grows, most_ops};
ghost use Rattle.hs_lower_expressions.specs.Emitting.{Emitted, count};
ghost use Rattle.hs_tree.specs.RowLaws.{rights_from};
ghost use Rattle.hs_tree.specs.Views.{view_right};

use crate::parts::{
    begin_either, branch, call, call_routine, change_memory, change_slot, end_both, end_either,
    fetch, meet, number_change, pointer_change, put, step_memory, step_slot, test_nil, turn,
};
use crate::{Context, EmitEnd, Ops};
use hs_code::{Binary, Object, Op, Unary};
use hs_tree::{Head, Lvalue, Rvalue, Stride};

/// Puts the code of an expression at the end of `ops`. The expression leaves one value on the stack. `depth` is how many values are on
/// the stack before it; an operation has left each of them there, so they are not more than the operations.
///
/// The targets of jumps are numbers in the whole list, so `ops` begins with the first operation of the function.
///
/// Fails if there would be more than 1000000 operations, or if memory runs out. After an error nothing is said of the operations.
///
/// `code` and `steps` say the same: `steps` is for a caller that writes more than one expression.
///
/// Example: for `i + 1`, where `i` is a slot: `Get(i)`, `Num(1)` and `Binary(Arithmetic(Add), Int)`.
pub fn expression(context: &Context, ops: &mut Ops, e: &Rvalue, depth: u32) -> Result<(), EmitEnd>
    requires fits { depth ≤ length ops.old }
    ensures code { Emits result ops.old ops.new (value_code context.now e.now (length ops.old) depth) }
    ensures steps { Emitted (value_steps context.now e.now depth ops.old) ops.new result }
    ensures grows { OnOk result (Grows ops.old ops.new) }
{
    prove!(depth <= ops.len());
    value(context, ops, e, depth)
}

/// Puts the code of an lvalue at the end of `ops`. It leaves the address of the object on the stack. `depth` and the errors are as for
/// `expression`.
///
/// Example: for `p->next`, where `p` is a slot and `next` lies at byte 4: `Get(p)` and `Offset(4)`.
pub fn address(context: &Context, ops: &mut Ops, object: &Lvalue, depth: u32) -> Result<(), EmitEnd>
    requires fits { depth ≤ length ops.old }
    ensures code { Emits result ops.old ops.new (place_code context.now object.now (length ops.old) depth) }
    ensures steps { Emitted (place_steps context.now object.now depth ops.old) ops.new result }
    ensures grows { OnOk result (Grows ops.old ops.new) }
{
    prove!(depth <= ops.len());
    place(context, ops, object, depth)
}

/// Puts the code of a value.
#[cycle(lowered)]
#[tactic(auto, using(crate::proofs::Equations::value_equations))]
fn value(context: &Context, ops: &mut Ops, e: &Rvalue, depth: u32) -> Result<(), EmitEnd>
    requires fits { depth ≤ length ops.old }
    requires few { length ops.old ≤ most_ops }
    ensures emitted { Emitted (value_steps context.now e.now depth ops.old) ops.new result }
    ensures grows { OnOk result (Grows ops.old ops.new) }
{
    match e {
        Rvalue::Number { head, bits } => put(context, ops, *head, Op::Num(*bits), depth),
        Rvalue::Nil { head } => put(context, ops, *head, Op::Nil, depth),
        Rvalue::Load { head, object } => match context.slot_of(object) {
            Some(its) => put(context, ops, *head, Op::Get(its), depth),
            None => {
                place(context, ops, object, depth)?;
                let access = context.access_of(object);
                put(context, ops, *head, Op::Load(access), depth + 1)
            }
        },
        Rvalue::Decay { array, .. } => place(context, ops, array, depth),
        Rvalue::Address { object, .. } => place(context, ops, object, depth),
        Rvalue::Cast { operand, .. } => value(context, ops, operand, depth),
        Rvalue::ConvertNumber {
            head,
            kind,
            operand,
        } => {
            value(context, ops, operand, depth)?;
            put(context, ops, *head, Op::Conv(*kind), depth + 1)
        }
        Rvalue::ConvertPointer { operand, .. } => value(context, ops, operand, depth),
        Rvalue::Unary {
            head,
            operator,
            operand,
            ..
        } => {
            value(context, ops, operand, depth)?;
            put(
                context,
                ops,
                *head,
                Op::Unary(Unary::Sign(*operator)),
                depth + 1,
            )
        }
        Rvalue::Not { head, operand } => {
            value(context, ops, operand, depth)?;
            put(context, ops, *head, Op::Unary(Unary::Not), depth + 1)
        }
        Rvalue::Arithmetic {
            head,
            operator,
            kind,
            left,
            right,
        } => {
            value(context, ops, left, depth)?;
            value(context, ops, right, depth + 1)?;
            let op = Op::Binary(Binary::Arithmetic(*operator), *kind);
            put(context, ops, *head, op, depth + 2)
        }
        Rvalue::Comparison {
            head,
            operator,
            kind,
            left,
            right,
        } => {
            value(context, ops, left, depth)?;
            value(context, ops, right, depth + 1)?;
            let op = Op::Binary(Binary::Comparison(*operator), *kind);
            put(context, ops, *head, op, depth + 2)
        }
        Rvalue::ComparePointers {
            head,
            operator,
            left,
            right,
        } => {
            value(context, ops, left, depth)?;
            value(context, ops, right, depth + 1)?;
            put(context, ops, *head, Op::Compare(*operator), depth + 2)
        }
        Rvalue::IsNil {
            head,
            equal,
            pointer,
        } => {
            value(context, ops, pointer, depth)?;
            test_nil(context, ops, *head, *equal, depth)
        }
        Rvalue::Step {
            head,
            stride,
            pointer_first,
            left,
            right,
        } => {
            value(context, ops, left, depth)?;
            value(context, ops, right, depth + 1)?;
            let op = Op::Step {
                stride: *stride,
                pointer_first: *pointer_first,
            };
            put(context, ops, *head, op, depth + 2)
        }
        Rvalue::Difference {
            head,
            size,
            left,
            right,
        } => {
            value(context, ops, left, depth)?;
            value(context, ops, right, depth + 1)?;
            put(context, ops, *head, Op::Difference(*size), depth + 2)
        }
        Rvalue::And { head, left, right } => {
            value(context, ops, left, depth)?;
            let test = branch(context, ops, *head, depth)?;
            value(context, ops, right, depth)?;
            end_both(context, ops, *head, test, depth)
        }
        Rvalue::Or { head, left, right } => {
            value(context, ops, left, depth)?;
            let jump = begin_either(context, ops, *head, depth)?;
            value(context, ops, right, depth)?;
            end_either(context, ops, *head, jump, depth)
        }
        Rvalue::Conditional {
            head,
            test,
            then,
            otherwise,
        } => {
            value(context, ops, test, depth)?;
            let failed = branch(context, ops, *head, depth)?;
            value(context, ops, then, depth)?;
            let jump = turn(context, ops, *head, failed, depth)?;
            value(context, ops, otherwise, depth)?;
            meet(context, ops, *head, jump, depth);
            Ok(())
        }
        Rvalue::Comma { head, lefts, right } => {
            dropped(context, ops, *head, lefts, depth)?;
            value(context, ops, right, depth)
        }
        Rvalue::Assign {
            head,
            target,
            value: from,
        } => match context.slot_of(target) {
            Some(its) => {
                value(context, ops, from, depth)?;
                put(context, ops, *head, Op::Set(its), depth + 1)
            }
            None => {
                place(context, ops, target, depth)?;
                value(context, ops, from, depth + 1)?;
                let access = context.access_of(target);
                put(context, ops, *head, Op::Store(access), depth + 2)
            }
        },
        Rvalue::Update {
            head,
            operator,
            kind,
            to,
            target,
            value: from,
        } => {
            let made = number_change(*operator, *kind, *to);
            match context.slot_of(target) {
                Some(its) => {
                    put(context, ops, *head, Op::Get(its), depth)?;
                    value(context, ops, from, depth + 1)?;
                    change_slot(context, ops, *head, made, its, depth)
                }
                None => {
                    place(context, ops, target, depth)?;
                    let access = context.access_of(target);
                    fetch(context, ops, *head, access, depth + 1)?;
                    value(context, ops, from, depth + 2)?;
                    change_memory(context, ops, *head, made, access, depth)
                }
            }
        }
        Rvalue::Advance {
            head,
            stride,
            target,
            value: from,
        } => {
            let made = pointer_change(*stride);
            match context.slot_of(target) {
                Some(its) => {
                    put(context, ops, *head, Op::Get(its), depth)?;
                    value(context, ops, from, depth + 1)?;
                    change_slot(context, ops, *head, made, its, depth)
                }
                None => {
                    place(context, ops, target, depth)?;
                    let access = context.access_of(target);
                    fetch(context, ops, *head, access, depth + 1)?;
                    value(context, ops, from, depth + 2)?;
                    change_memory(context, ops, *head, made, access, depth)
                }
            }
        }
        Rvalue::PostUpdate {
            head,
            operator,
            kind,
            to,
            target,
        } => {
            let made = number_change(*operator, *kind, *to);
            match context.slot_of(target) {
                Some(its) => step_slot(context, ops, *head, made, its, depth),
                None => {
                    place(context, ops, target, depth)?;
                    let access = context.access_of(target);
                    step_memory(context, ops, *head, made, access, depth)
                }
            }
        }
        Rvalue::PostAdvance {
            head,
            stride,
            target,
        } => {
            let made = pointer_change(*stride);
            match context.slot_of(target) {
                Some(its) => step_slot(context, ops, *head, made, its, depth),
                None => {
                    place(context, ops, target, depth)?;
                    let access = context.access_of(target);
                    step_memory(context, ops, *head, made, access, depth)
                }
            }
        }
        Rvalue::Call {
            head,
            function,
            routine,
            arguments: its,
        } => {
            let above = arguments(context, ops, its, depth)?;
            call(context, ops, *head, *function, *routine, above)
        }
        Rvalue::CallRoutine {
            head,
            routine,
            arguments: its,
        } => {
            let above = arguments(context, ops, its, depth)?;
            call_routine(context, ops, *head, *routine, above)
        }
    }
}

/// Puts the code of the address of an lvalue.
#[cycle(lowered)]
#[tactic(auto, using(crate::proofs::Equations::place_equations))]
fn place(context: &Context, ops: &mut Ops, object: &Lvalue, depth: u32) -> Result<(), EmitEnd>
    requires fits { depth ≤ length ops.old }
    requires few { length ops.old ≤ most_ops }
    ensures emitted { Emitted (place_steps context.now object.now depth ops.old) ops.new result }
    ensures grows { OnOk result (Grows ops.old ops.new) }
{
    match object {
        Lvalue::Variable { head, variable } => {
            let op = Op::Address(Object::Variable(*variable));
            put(context, ops, *head, op, depth)
        }
        Lvalue::Literal { head, literal } => {
            put(
                context,
                ops,
                *head,
                Op::Address(Object::Literal(*literal)),
                depth,
            )
        }
        Lvalue::Target { pointer, .. } => value(context, ops, pointer, depth),
        Lvalue::Element {
            head,
            size,
            pointer_first,
            left,
            right,
        } => {
            value(context, ops, left, depth)?;
            value(context, ops, right, depth + 1)?;
            let op = Op::Step {
                stride: Stride {
                    size: *size,
                    backward: false,
                },
                pointer_first: *pointer_first,
            };
            put(context, ops, *head, op, depth + 2)
        }
        Lvalue::Member {
            head,
            offset,
            object,
            ..
        } => {
            place(context, ops, object, depth)?;
            put(context, ops, *head, Op::Offset(*offset), depth + 1)
        }
        Lvalue::Arrow {
            head,
            offset,
            pointer,
            ..
        } => {
            value(context, ops, pointer, depth)?;
            put(context, ops, *head, Op::Offset(*offset), depth + 1)
        }
    }
}

/// Puts the code of arguments, in their order. Returns how many values are then on the stack.
#[cycle(lowered)]
fn arguments(context: &Context, ops: &mut Ops, its: &[Rvalue], depth: u32) -> Result<u32, EmitEnd>
    requires fits { depth ≤ length ops.old }
    requires few { length ops.old ≤ most_ops }
    ensures emitted { Emitted (values_steps context.now its.now depth ops.old) ops.new result }
    ensures above { IfOk result (λ above. above ≡ depth + count (rights_from (map view_right its.now))) }
    ensures fits { IfOk result (λ above. above ≤ length ops.new) }
    ensures keeps { OnOk result (length ops.old ≤ length ops.new) }
    ensures few { OnOk result (length ops.new ≤ most_ops) }
{
    let mut above = depth;
    for e in its {
        value(context, ops, e, above)?;
        above += 1;
    }
    Ok(above)
}

/// Puts the code of the left operands of a comma, and drops the value of each.
#[cycle(lowered)]
fn dropped(
    context: &Context,
    ops: &mut Ops,
    head: Head,
    its: &[Rvalue],
    depth: u32,
) -> Result<(), EmitEnd>
    requires fits { depth ≤ length ops.old }
    requires few { length ops.old ≤ most_ops }
    ensures emitted { Emitted (drops_steps context.now head its.now depth ops.old) ops.new result }
    ensures keeps { OnOk result (length ops.old ≤ length ops.new) }
    ensures few { OnOk result (length ops.new ≤ most_ops) }
{
    for e in its {
        value(context, ops, e, depth)?;
        put(context, ops, head, Op::Drop, depth + 1)?;
    }
    Ok(())
}
