//! The values of constants.

ghost use Rattle.std.specs.Prelude.{◌≡◌, ◌≤◌, OnOk};
ghost use Rattle.hs_lower_expressions.specs.Emits.{Grows};
ghost use Rattle.hs_lower_expressions.specs.Emitting.{Emitted};
ghost use Rattle.hs_tree.specs.Kinds.{is_pointer};
ghost use Rattle.hs_lower_starts.specs.Steps.{base_object, address_made, constant_made, zero_op, made};

use crate::puts::{Target, put};
use hs_code::{Object, Op};
use hs_lower_expressions::{EmitEnd, Ops};
use hs_tree::{Base, Constant, Part, Stride, Variable};
use hs_types::{Row, TypeId, Types};

/// The object of an address constant.
fn base_object(base: Base) -> Object
    ensures { result ≡ base_object base }
{
    match base {
        Base::Global(place) => Object::Variable(Variable::Global(place)),
        Base::Literal(place) => Object::Literal(place),
    }
}

/// Puts an address constant: the address of its object, and a step of so many bytes.
#[tactic(auto, unfolding(crate::specs::Steps::address_made))]
fn put_address_constant(
    ops: &mut Ops,
    to: Target,
    base: Base,
    offset: i32,
    depth: u32,
) -> Result<(), EmitEnd>
    requires fits { depth ≤ 1 }
    ensures emitted { Emitted (address_made to base offset depth ops.old) ops.new result }
    ensures grows { OnOk result (Grows ops.old ops.new) }
{
    put(ops, to, Op::Address(base_object(base)), depth)?;
    put(ops, to, Op::Num(offset.cast_unsigned()), depth + 1)?;
    let stride = Stride {
        size: 1,
        backward: false,
    };
    let step = Op::Step {
        stride,
        pointer_first: true,
    };
    put(ops, to, step, depth + 2)
}

/// Puts the value of a constant.
fn put_constant(ops: &mut Ops, to: Target, its: Constant, depth: u32) -> Result<(), EmitEnd>
    requires fits { depth ≤ 1 }
    ensures emitted { Emitted (constant_made to its depth ops.old) ops.new result }
    ensures grows { OnOk result (Grows ops.old ops.new) }
{
    match its {
        Constant::Number(bits) => put(ops, to, Op::Num(bits), depth),
        Constant::Nil => put(ops, to, Op::Nil, depth),
        Constant::Address { base, offset } => put_address_constant(ops, to, base, offset, depth),
    }
}

/// 0 or NIL, by the type of a scalar.
fn zero_op(types: &Types, type_id: TypeId) -> Op
    ensures { result ≡ zero_op (is_pointer types.now type_id) }
{
    match types.row(type_id) {
        Some(Row::Pointer(_)) => Op::Nil,
        Some(
            Row::Void
            | Row::Integer(_)
            | Row::Enumeration(_)
            | Row::Struct(_)
            | Row::Array { .. }
            | Row::OpenArray(_)
            | Row::Function { .. },
        )
        | None => Op::Num(0),
    }
}

/// Puts the constant of a scalar of that type, or 0 or NIL.
#[tactic(auto, unfolding(crate::specs::Steps::made))]
pub(crate) fn put_scalar(
    types: &Types,
    ops: &mut Ops,
    to: Target,
    type_id: TypeId,
    part: Option<Part>,
    depth: u32,
) -> Result<(), EmitEnd>
    requires fits { depth ≤ 1 }
    ensures emitted { Emitted (made types.now to type_id part depth ops.old) ops.new result }
    ensures grows { OnOk result (Grows ops.old ops.new) }
{
    match part {
        Some(part) => put_constant(ops, to, part.value, depth),
        None => put(ops, to, zero_op(types, type_id), depth),
    }
}
