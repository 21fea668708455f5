//! First values of automatic variables (X3.159-1989 3.5.7).

ghost use Rattle.std.specs.Prelude.{◌≡◌, ◌≤◌, length, OnOk};
ghost use Rattle.hs_lower_expressions.specs.Contexts.{setting_in};
ghost use Rattle.hs_lower_expressions.specs.Emits.{Emits, Grows, most_ops};
ghost use Rattle.hs_lower_expressions.specs.Emitting.{Emitted};
ghost use Rattle.hs_tree.specs.Views.{view_right, view_initial, view_item, view_function};
ghost use Rattle.hs_lower_starts.specs.FirstValues.{item_code, item_steps};
ghost use Rattle.hs_lower_starts.specs.Steps.{target_of, front_steps, value_steps, initial_steps};

use crate::access::{access_of_type, class_of_type};
use crate::parts::start_scalars;
use crate::puts::{Target, put, put_address, put_end};
use hs_base::Pos;
use hs_code::{Object, Op};
use hs_lower_expressions::{Context, EmitEnd, Ops, expression};
use hs_tree::{Function, Initial, Initialised, Rvalue, Variable};
use hs_types::{Row, TypeId};
use std::alloc::Global;

/// The local variable of that place. One that is not there is an object of type `void`.
fn target(context: &Context, variable: u32, at: Pos) -> Target
    ensures { result
        ≡ target_of context.now.types.now context.now.variables.now context.now.piece variable at }
{
    match context.variables.items().get(variable as usize) {
        Some(declared) => Target {
            piece: context.piece,
            at,
            variable: Variable::Local(variable),
            type_id: declared.type_id,
            in_slot: declared.is_slot(context.types),
        },
        None => Target {
            piece: context.piece,
            at,
            variable: Variable::Local(variable),
            type_id: TypeId { number: 0 },
            in_slot: false,
        },
    }
}

/// Puts the address of the object that gets a value. A struct is named by its own address.
#[tactic(auto, unfolding(crate::specs::Steps::front_steps))]
fn put_front(context: &Context, ops: &mut Ops, to: Target) -> Result<(), EmitEnd>
    ensures emitted { Emitted (front_steps context.now.types.now to ops.old) ops.new result }
    ensures grows { OnOk result (Grows ops.old ops.new) }
{
    match context.types.row(to.type_id) {
        Some(Row::Struct(_)) => put(ops, to, Op::Address(Object::Variable(to.variable)), 0),
        Some(
            Row::Void
            | Row::Integer(_)
            | Row::Pointer(_)
            | Row::Enumeration(_)
            | Row::Array { .. }
            | Row::OpenArray(_)
            | Row::Function { .. },
        )
        | None => put_address(ops, to, 0),
    }
}

/// Gives the variable the value of an expression.
#[tactic(auto, unfolding(crate::specs::Steps::value_steps, hs_lower_expressions::specs::Contexts::setting_in))]
fn start_value(context: &Context, ops: &mut Ops, to: Target, e: &Rvalue) -> Result<(), EmitEnd>
    ensures emitted { Emitted (value_steps (setting_in context.now) context.now.variables.now
        context.now.piece to (view_right e.now) ops.old) ops.new result }
    ensures grows { OnOk result (Grows ops.old ops.new) }
{
    if to.in_slot {
        expression(context, ops, e, 0)?;
        return put_end(ops, to, Op::Set(to.variable), 1);
    }
    put_front(context, ops, to)?;
    expression(context, ops, e, 1)?;
    let class = class_of_type(context, to.type_id);
    let access = access_of_type(context, to.type_id, class);
    put_end(ops, to, Op::Store(access), 2)
}

/// Gives the variable what it starts with.
#[tactic(auto, unfolding(hs_lower_expressions::specs::Contexts::setting_in))]
fn start(
    alloc: Global,
    context: &Context,
    ops: &mut Ops,
    to: Target,
    its: &Initial,
) -> Result<(), EmitEnd>
    requires few { length ops.old ≤ most_ops }
    ensures emitted { Emitted (initial_steps (setting_in context.now) context.now.variables.now
        context.now.piece to (view_initial its.now) ops.old) ops.new result }
    ensures keeps { OnOk result (length ops.old ≤ length ops.new) }
    ensures few { OnOk result (length ops.new ≤ most_ops) }
{
    match its {
        Initial::Value(e) => start_value(context, ops, to, e),
        Initial::Parts(parts) => start_scalars(alloc, context, ops, to, parts.items()),
    }
}

/// Puts the code that gives a variable of the function its first value at the end of `ops`. Nothing is on the stack before it, and nothing
/// after it. `context` has the variables of `function`, and the number of the declaration's piece of text.
///
/// For an initialiser in braces it takes as much time as the variable has scalars, and the initialiser constants.
///
/// Fails if there would be more than 1000000 operations, or if memory runs out. After an error nothing is said of the operations.
///
/// `code` and `steps` say the same: `steps` is for a caller that gives more than one variable its value.
///
/// Example: for `int i = 3;`, where `i` is a slot: `Num(3)`, `Set(i)` and `Drop`.
pub fn first_value(
    alloc: Global,
    context: &Context,
    function: &Function,
    ops: &mut Ops,
    item: &Initialised,
) -> Result<(), EmitEnd>
    requires variables { context.now.variables.now ≡ function.now.variables }
    ensures code { Emits result ops.old ops.new (item_code (setting_in context.now)
        (view_function function.now) context.now.piece (view_item item.now) (length ops.old)) }
    ensures steps { Emitted (item_steps (setting_in context.now)
        (view_function function.now) context.now.piece (view_item item.now) ops.old) ops.new result }
    ensures keeps { OnOk result (length ops.old ≤ length ops.new) }
    ensures few { OnOk result (length ops.new ≤ most_ops) }
{
    prove!(ops.len() <= 1_000_000);
    let to = target(context, item.variable, item.at.pos);
    start(alloc, context, ops, to, &item.value)
}
