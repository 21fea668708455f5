//! Constants for all scalars of a variable.

ghost use Rattle.std.specs.Prelude.{◌≡◌, ◌≤◌, length, OnOk};
ghost use Rattle.hs_lower_expressions.specs.Contexts.{setting_in};
ghost use Rattle.hs_lower_expressions.specs.Emits.{Grows, most_ops};
ghost use Rattle.hs_lower_expressions.specs.Emitting.{Emitted};
ghost use Rattle.hs_meaning.specs.Scalars.{scalars_of};
ghost use Rattle.hs_scalars.specs.Left.{of_scalar};
ghost use Rattle.hs_lower_starts.specs.Steps.{slot_steps, object_steps, scalar_steps, scalars_steps};

use crate::access::{access_of_type, class_of_scalar};
use crate::constants::put_scalar;
use crate::part_index::PartIndex;
use crate::puts::{Target, put_address, put_end};
use hs_code::Op;
use hs_lower_expressions::{Context, EmitEnd, Ops};
use hs_scalars::{Scalar, Scalars};
use hs_tree::Part;
use std::alloc::Global;

/// Gives a slot its constant.
#[tactic(auto, unfolding(crate::specs::Steps::slot_steps))]
fn start_slot(
    context: &Context,
    ops: &mut Ops,
    to: Target,
    its: Scalar,
    part: Option<Part>,
) -> Result<(), EmitEnd>
    ensures emitted { Emitted
        (slot_steps context.now.types.now to (of_scalar its) part ops.old) ops.new result }
    ensures grows { OnOk result (Grows ops.old ops.new) }
{
    put_scalar(context.types, ops, to, its.type_id, part, 0)?;
    put_end(ops, to, Op::Set(to.variable), 1)
}

/// Gives a scalar inside an object its constant.
#[tactic(auto, unfolding(crate::specs::Steps::object_steps, hs_lower_expressions::specs::Contexts::setting_in))]
fn start_inside(
    context: &Context,
    ops: &mut Ops,
    to: Target,
    its: Scalar,
    part: Option<Part>,
) -> Result<(), EmitEnd>
    ensures emitted { Emitted
        (object_steps (setting_in context.now) to (of_scalar its) part ops.old) ops.new result }
    ensures grows { OnOk result (Grows ops.old ops.new) }
{
    put_address(ops, to, its.offset)?;
    put_scalar(context.types, ops, to, its.type_id, part, 1)?;
    let access = access_of_type(context, its.type_id, class_of_scalar(context, its));
    put_end(ops, to, Op::Store(access), 2)
}

/// Gives a scalar its constant, or 0 or NIL.
#[tactic(auto, unfolding(crate::specs::Steps::scalar_steps, hs_lower_expressions::specs::Contexts::setting_in))]
fn start_scalar(
    context: &Context,
    ops: &mut Ops,
    to: Target,
    its: Scalar,
    part: Option<Part>,
) -> Result<(), EmitEnd>
    ensures emitted { Emitted
        (scalar_steps (setting_in context.now) to (of_scalar its) part ops.old) ops.new result }
    ensures grows { OnOk result (Grows ops.old ops.new) }
{
    if to.in_slot {
        start_slot(context, ops, to, its, part)
    } else {
        start_inside(context, ops, to, its, part)
    }
}

/// Gives all scalars their constants, in order.
pub(crate) fn start_scalars(
    alloc: Global,
    context: &Context,
    ops: &mut Ops,
    to: Target,
    parts: &[Part],
) -> Result<(), EmitEnd>
    requires few { length ops.old ≤ most_ops }
    ensures emitted { Emitted (scalars_steps (setting_in context.now) to parts.now
        (scalars_of context.now.types.now to.type_id) ops.old) ops.new result }
    ensures keeps { OnOk result (length ops.old ≤ length ops.new) }
    ensures few { OnOk result (length ops.new ≤ most_ops) }
{
    let index = PartIndex::of(alloc, parts)?;
    let mut scalars = Scalars::new(alloc, context.types, to.type_id)?;
    'scalars: while let Some(its) = scalars.next()? {
        let part = index.part_for(its);
        start_scalar(context, ops, to, its, part)?;
    }
    Ok(())
}
